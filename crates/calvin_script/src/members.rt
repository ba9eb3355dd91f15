//! The members that every request has.
ghost use Rattle.std.specs.Prelude.{◌≡◌, IfSome};
ghost use Rattle.serde_json.specs.View.{view};
ghost use Rattle.calvin_script.specs.Requests.{with_these_alone, with_sets_alone};

use serde_json::Value;

/// The members that every request has.
#[derive(Clone, Copy)]
pub(crate) struct Needed<'a> {
    pub client: &'a Value,
    pub number: &'a Value,
    pub op: &'a Value,
}

/// The members of an object that has these three and no others, as most requests do: they stand in this order, so one
/// pass finds them.
pub(crate) fn needed_alone(value: &Value) -> Option<Needed<'_>>
    ensures { IfSome result (λ m. view value.now
        ≡ with_these_alone (view m.client.now) (view m.number.now) (view m.op.now)) }
{
    let mut members = value.as_object()?.iter();
    let (first, client) = members.next()?;
    let (second, number) = members.next()?;
    let (third, op) = members.next()?;
    if members.next().is_some() {
        return None;
    }
    if first.as_str() == "client" && second.as_str() == "number" && third.as_str() == "op" {
        Some(Needed { client, number, op })
    } else {
        None
    }
}

/// The members of an object that has those three, both sets and no others, as a request with declared sets does at its
/// first attempt.
#[derive(Clone, Copy)]
pub(crate) struct Declared<'a> {
    pub needed: Needed<'a>,
    pub reads: &'a Value,
    pub writes: &'a Value,
}

/// The members of an object that has these five and no others: they stand in this order, so one pass finds them.
pub(crate) fn declared_alone(value: &Value) -> Option<Declared<'_>>
    ensures { IfSome result (λ m. view value.now
        ≡ with_sets_alone (view m.needed.client.now) (view m.needed.number.now) (view m.needed.op.now) (view m.reads.now) (view m.writes.now)) }
{
    let mut members = value.as_object()?.iter();
    let (first, client) = members.next()?;
    let (second, number) = members.next()?;
    let (third, op) = members.next()?;
    let (fourth, reads) = members.next()?;
    let (fifth, writes) = members.next()?;
    if let Some(_more) = members.next() {
        return None;
    }
    let are_needed = first.as_str() == "client"
        && second.as_str() == "number"
        && third.as_str() == "op";
    if are_needed && fourth.as_str() == "reads" && fifth.as_str() == "writes" {
        let needed = Needed { client, number, op };
        Some(Declared {
            needed,
            reads,
            writes,
        })
    } else {
        None
    }
}
