//! Requests, read from tokens.
ghost use Rattle.std.specs.Prelude.{◌≡◌, [], Some, IfSome};
ghost use Rattle.serde_json.specs.Data.{Members, no_members, object};
ghost use Rattle.calvin_script.specs.Requests.{request};
ghost use Rattle.calvin_script_tokens.specs.Gathered.{HoldsRequest};
ghost use Rattle.calvin_script_tokens.specs.Spelled.{Spells, SpellsOneMore};

use crate::keys::read_key_set;
use crate::list::Piece;
use crate::object::{Object, read_object};
use crate::operation::OperationTokens;
use crate::tokens::{is_same, u8_value, u32_value};
use calvin_script::{Kept, WholeKey};
use calvin_types::{KeySet, MOST_REQUESTS, RequestId, Sets};
use json::Reader;
use std::alloc::Global;
use std::marker::Model;

/// Which members of a request were read.
#[derive(Clone, Copy)]
pub(crate) struct Seen {
    client: bool,
    number: bool,
    op: bool,
    reads: bool,
    writes: bool,
}

/// The declared sets as they are gathered, which contracts see as sets. They take memory of their own, and none before
/// there is a member for them.
#[derive(Drop)]
pub(crate) struct Declared {
    sets: Option<Box<Sets>>,
}

impl Model for Declared {
    ghost use Rattle.std.specs.Prelude.{[], option_map};
    ghost use Rattle.std.specs.Option.{unwrap_or};
    ghost use Rattle.calvin_types.specs.declared.key_set.Sets.{Sets};

    ghost Value = { Sets };

    ghost view = { λ d. unwrap_or (option_map (λ b. b.value) d.sets) (record { reads = []; writes = [] }) };
}

impl Declared {
    /// Sets that have no key.
    fn none() -> Declared
        ensures { result ≡ record { reads = []; writes = [] } }
    {
        Declared { sets: None }
    }

    /// These sets.
    fn of(sets: Box<Sets>) -> Declared
        ensures { result ≡ sets.value }
    {
        Declared { sets: Some(sets) }
    }

    /// Takes the sets out, in memory of their own. There is no answer where memory runs out.
    fn take(&mut self, alloc: Global) -> Option<Box<Sets>>
        ensures { IfSome result (λ sets. sets.value ≡ self.old) }
    {
        match self.sets.take() {
            Some(sets) => Some(sets),
            None => {
                let none = Sets {
                    reads: KeySet::new(),
                    writes: KeySet::new(),
                };
                Box::new(alloc, none).ok()
            }
        }
    }
}

/// A request as it is gathered from its members. Its operation has no name before all were read.
#[derive(Drop)]
pub(crate) struct RequestMembers<Op> {
    id: RequestId,
    attempt: u8,
    args: Op,
    declared: Declared,
    seen: Seen,
}

impl<Op: OperationTokens> RequestMembers<Op> {
    /// A request of which nothing was read.
    fn new() -> RequestMembers<Op>
        ensures { HoldsRequest Op.grammar no_members result }
    {
        let id = RequestId {
            client: 0,
            number: 0,
        };
        let seen = Seen {
            client: false,
            number: false,
            op: false,
            reads: false,
            writes: false,
        };
        RequestMembers {
            id,
            attempt: 1,
            args: Op::blank(),
            declared: Declared::none(),
            seen,
        }
    }

    /// The whole request when all members were read: its operation gets its name, and declared sets are completed.
    fn finish(&mut self, alloc: Global) -> Option<Kept<Op>>
        ensures { IfSome result (λ kept. (found : Members) → HoldsRequest Op.grammar found self.old
            → request Op.grammar (object found) ≡ Some kept) }
    {
        if !self.seen.client || !self.seen.number || !self.seen.op {
            return None;
        }
        self.args.give_name(self.id)?;
        if self.seen.reads && self.seen.writes {
            let mut declared = self.declared.take(alloc)?;
            self.args.complete(&mut declared)?;
            return Some(Kept::new(self.id, self.attempt, self.args, Some(declared)));
        }
        if self.seen.reads || self.seen.writes {
            return None;
        }
        Some(Kept::new(self.id, self.attempt, self.args, None))
    }
}

impl<Op: OperationTokens> Object for RequestMembers<Op> {
    ghost use Rattle.calvin_script_tokens.specs.Gathered.{HoldsRequest};

    ghost holds = { HoldsRequest Op.grammar };

    ghost deep = { 121 };

    fn read_member(&mut self, alloc: Global, reader: &mut Reader<'_>, name: &str) -> Option<()> {
        if is_same(name, "client") {
            self.id.client = u32_value(reader)?;
            self.seen.client = true;
            return Some(());
        }
        if is_same(name, "number") {
            self.id.number = u32_value(reader)?;
            self.seen.number = true;
            return Some(());
        }
        if is_same(name, "op") {
            self.args.read_tokens(reader)?;
            self.seen.op = true;
            return Some(());
        }
        if is_same(name, "reads") {
            let mut sets = self.declared.take(alloc)?;
            if !sets.reads.is_empty() {
                return None;
            }
            read_key_set::<WholeKey>(reader, &mut sets.reads)?;
            self.declared = Declared::of(sets);
            self.seen.reads = true;
            return Some(());
        }
        if is_same(name, "writes") {
            let mut sets = self.declared.take(alloc)?;
            if !sets.writes.is_empty() {
                return None;
            }
            read_key_set::<WholeKey>(reader, &mut sets.writes)?;
            self.declared = Declared::of(sets);
            self.seen.writes = true;
            return Some(());
        }
        if is_same(name, "attempt") {
            self.attempt = u8_value(reader)?;
            return Some(());
        }
        None
    }
}

/// The request that the next tokens spell.
#[inline(always)]
pub fn request_at<Op: OperationTokens>(alloc: Global, reader: &mut Reader<'_>) -> Option<Kept<Op>>
    ensures { IfSome result (λ r. Spells (request Op.grammar) 122 reader.old r reader.new) }
{
    let mut members = RequestMembers::new();
    read_object(alloc, reader, &mut members)?;
    let kept = members.finish(alloc)?;
    Some(kept)
}

impl<Op: OperationTokens> Piece for Kept<Op> {
    ghost use Rattle.calvin_script.specs.declared.contents.Request.{Request};
    ghost use Rattle.calvin_script.specs.Requests.{request};

    ghost Meaning = { Request Op };

    ghost meaning = { λ r. r };

    ghost spelled = { request Op.grammar };

    ghost deep = { 122 };

    // A short batch takes the room of its requests, a longer one at once that of the longest.
    fn room_behind(len: usize) -> usize {
        if len < 2 { 1 } else { MOST_REQUESTS }
    }

    fn push_tokens(
        alloc: Global,
        reader: &mut Reader<'_>,
        found: &mut Vec<Kept<Op>>,
    ) -> Option<()> {
        let kept = request_at(alloc, reader)?;
        let Ok(()) = found.push(kept) else {
            return None;
        };
        Some(())
    }
}
