//! Requests.
ghost use Rattle.std.specs.Prelude.{◌≡◌, ◌^◌, [], false, option_map, IfOk, IsOkUnless};
ghost use Rattle.serde_json.specs.View.{view};
ghost use Rattle.calvin_script.specs.Requests.{id_of, named, sets_of, request_of, request};
ghost use Rattle.calvin_script.specs.Gives.{Gives};
ghost use Rattle.calvin_script.specs.Spelling.{below, optional};

use crate::fields::{has_only, u8_of, u32_of};
use crate::kept::Kept;
use crate::key_list::{WholeKey, read_key_set};
use crate::list::Spelled;
use crate::members::{Needed, declared_alone, needed_alone};
use crate::operation::Operation;
use calvin_types::{Fault, KeySet, RequestId, Sets, Txn};
use serde_json::Value;
use std::alloc::Global;

#[tactic(auto, unfolding(crate::specs::Requests::id_of))]
fn id_of(client: &Value, number: &Value) -> Option<RequestId>
    ensures { result ≡ id_of (view client.now) (view number.now) }
{
    let client = u32_of(client)?;
    let number = u32_of(number)?;
    Some(RequestId { client, number })
}

/// Adds the keys of a request to sets that have none: the declared ones, both sets or neither, completed by the
/// application, else those that its operation needs where no row is known.
#[tactic(auto, unfolding(crate::specs::Requests::sets_of))]
fn read_sets<Op: Operation>(
    args: &Op,
    reads: Option<&Value>,
    writes: Option<&Value>,
    sets: &mut Sets,
) -> Option<()>
    requires { sets.old ≡ record { reads = []; writes = [] } }
    ensures { sets_of Op.grammar args.now (option_map (λ v. view v.now) reads.entry) (option_map (λ v. view v.now) writes.entry)
        ≡ option_map (λ _. sets.new) result }
{
    match (reads, writes) {
        (None, None) => args.add_first_sets(sets),
        (Some(reads), Some(writes)) => {
            read_key_set::<WholeKey>(reads, &mut sets.reads)?;
            read_key_set::<WholeKey>(writes, &mut sets.writes)?;
            args.complete(sets)?;
        }
        _ => return None,
    }
    Some(())
}

/// Reads the operation and the sets of a request that has its name and its attempt, and no key yet.
#[tactic(auto, unfolding(crate::specs::Requests::named))]
fn read_named<Op: Operation>(
    txn: &mut Txn<Op>,
    op: &Value,
    reads: Option<&Value>,
    writes: Option<&Value>,
) -> Option<()>
    requires { txn.old.sets ≡ record { reads = []; writes = [] } }
    ensures { named Op.grammar txn.old.id txn.old.attempt (view op.now) (option_map (λ v. view v.now) reads.entry) (option_map (λ v. view v.now) writes.entry)
        ≡ option_map (λ _. txn.new) result }
{
    txn.args.read(txn.id, op)?;
    read_sets(&txn.args, reads, writes, &mut txn.sets)
}

/// Keeps a request, of which the sets were declared or are those that its operation needs where no row is known.
fn keep<Op: Operation>(alloc: Global, txn: &Txn<Op>, is_declared: bool) -> Result<Kept<Op>, Fault>
    requires { is_declared ≡ false → txn.now.sets ≡ Op.grammar.first_needs txn.now.args }
    ensures ok { IfOk result (λ kept. kept ≡ record { txn = txn.now; is_declared = is_declared }) }
    ensures only { IsOkUnless result Fault.OutOfMemory }
{
    if is_declared {
        let declared = Box::new(alloc, txn.sets)?;
        return Ok(Kept::new(txn.id, txn.attempt, txn.args, Some(declared)));
    }
    Ok(Kept::new(txn.id, txn.attempt, txn.args, None))
}

/// The request that members spell.
#[tactic(auto, unfolding(crate::specs::Requests::request_of), using(crate::proofs::KeptRequests::undeclared))]
fn request_of<Op: Operation>(
    alloc: Global,
    needed: Needed<'_>,
    attempt: u8,
    reads: Option<&Value>,
    writes: Option<&Value>,
) -> Result<Kept<Op>, Fault>
    ensures { Gives (λ r. r) result (request_of Op.grammar
        (view needed.entry.client.now) (view needed.entry.number.now) (view needed.entry.op.now) attempt
        (option_map (λ v. view v.now) reads.entry) (option_map (λ v. view v.now) writes.entry)) }
{
    let id = id_of(needed.client, needed.number).ok_or(Fault::BadScript)?;
    let mut txn = Txn {
        id,
        attempt,
        args: Op::blank(),
        sets: Sets {
            reads: KeySet::new(),
            writes: KeySet::new(),
        },
    };
    read_named(&mut txn, needed.op, reads, writes).ok_or(Fault::BadScript)?;
    keep(alloc, &txn, reads.is_some())
}

/// The number of the attempt: 1 where none is given.
fn attempt_of(attempt: Option<&Value>) -> Option<u8>
    ensures { result ≡ optional 1 (below (2 ^ 8)) (option_map (λ v. view v.now) attempt.entry) }
{
    match attempt {
        None => Some(1),
        Some(attempt) => u8_of(attempt),
    }
}

impl<Op: Operation> Kept<Op> {
    /// The request that a piece of JSON spells: one that no sequencer takes has the form too. Refused with `BadScript`
    /// where it spells none, and with `OutOfMemory`.
    #[tactic(auto, unfolding(crate::specs::Requests::request), using(crate::proofs::Names::short_request, crate::proofs::Names::declared_request))]
    pub fn read(alloc: Global, value: &Value) -> Result<Kept<Op>, Fault>
        ensures { Gives (λ r. r) result (request Op.grammar (view value.now)) }
    {
        if let Some(needed) = needed_alone(value) {
            return request_of(alloc, needed, 1, None, None);
        }
        if let Some(declared) = declared_alone(value) {
            let (reads, writes) = (Some(declared.reads), Some(declared.writes));
            return request_of(alloc, declared.needed, 1, reads, writes);
        }
        if !has_only(
            value,
            &["client", "number", "op", "attempt", "reads", "writes"],
        ) {
            return Err(Fault::BadScript);
        }
        let client = value.get("client").ok_or(Fault::BadScript)?;
        let number = value.get("number").ok_or(Fault::BadScript)?;
        let op = value.get("op").ok_or(Fault::BadScript)?;
        let needed = Needed { client, number, op };
        let attempt = attempt_of(value.get("attempt")).ok_or(Fault::BadScript)?;
        request_of(
            alloc,
            needed,
            attempt,
            value.get("reads"),
            value.get("writes"),
        )
    }
}

impl<Op: Operation> Spelled for Kept<Op> {
    ghost use Rattle.calvin_script.specs.declared.contents.Request.{Request};
    ghost use Rattle.calvin_script.specs.Requests.{request};

    ghost Meaning = { Request Op };

    ghost meaning = { λ r. r };

    ghost spelled = { request Op.grammar };

    fn push_json(alloc: Global, value: Value, found: &mut Vec<Kept<Op>>) -> Result<(), Fault> {
        let request = Kept::read(alloc, &value)?;
        found.push(request)?;
        Ok(())
    }
}
