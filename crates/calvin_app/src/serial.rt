//! Requests run one at a time, on one undivided map: what every other run of them has to agree with (Thomson et al.
//! 2012, section 3: the order of requests is fixed first, and execution is equivalent to running them serially in it).
ghost use Rattle.calvin_app.specs.declared.answer.Answer.TheVariants.{Changed, Reply};
ghost use Rattle.std.specs.Prelude.{◌≡◌, ◌≢◌, ◌↔◌, ◌⊎◌, IfOk, IfErr, OnOk, OnErr, IsOkUnless, [], true, false, IsOk, IsErrOf};
ghost use Rattle.std.specs.FinMap as map;
ghost use Rattle.calvin_types.specs.Keys.{are_distinct};
ghost use Rattle.calvin_app.specs.Rows.{view, overwritten};
ghost use Rattle.calvin_app.specs.Writing.{keys_of};
ghost use Rattle.calvin_app.specs.Serial.{nameless, answer_one, after_one, writes_on};

use crate::answer::Answer;
use crate::app::App;
use crate::table::Table;
use crate::view::View;
use crate::writes::Writes;
use calvin_types::{Fault, Key, KeySet, Sets, Txn};
use std::alloc::{AllocError, Global};
use std::marker::Model;

/// An application with all rows on one map, which runs one request after another. Contracts see it as its rows.
#[derive(Drop)]
pub struct Serial<A: App> {
    app: A,
    rows: Table<A::Row>,
}

impl<A: App> Model for Serial<A> {
    ghost use Rattle.std.specs.FinMap as map;
    ghost use Rattle.calvin_types.specs.Keys.{key_cmp};
    ghost use Rattle.calvin_types.specs.Codes.{coded_key};

    ghost Value = { map.FinMap key_cmp A.Row };

    ghost coded = { map.code coded_key A.Row.code };

    ghost view = { λ s. s.rows };
}

impl<A: App + Drop> Serial<A> {
    /// The application on these rows. Refused with `Repeated` where a key comes twice, and else for want of memory.
    pub fn from_rows(alloc: Global, app: A, rows: &[(Key, A::Row)]) -> Result<Serial<A>, Fault>
        ensures ok { IfOk result (λ all. all ≡ overwritten map.empty rows.now) }
        ensures repeated { IsErrOf result Fault.Repeated ↔ (are_distinct (keys_of rows.now) ≡ false) }
        ensures only { IfErr result (λ fault. (fault ≡ Fault.OutOfMemory) ⊎ (fault ≡ Fault.Repeated)) }
    {
        Ok(Serial {
            app,
            rows: Table::from_rows(alloc, rows)?,
        })
    }
}

impl<A: App> Serial<A> {
    /// The application on no rows.
    pub fn new(alloc: Global, app: A) -> Serial<A>
        ensures { result ≡ map.empty }
    {
        Serial {
            app,
            rows: Table::new(alloc),
        }
    }

    /// Makes room for so many rows more, which then needn't be moved one step after another. Refused for want of memory.
    pub fn reserve(&mut self, rows: usize) -> Result<(), Fault>
        ensures kept { self.new ≡ self.old }
        ensures only { IsOkUnless result Fault.OutOfMemory }
    {
        self.rows.reserve(rows)
    }

    /// All rows.
    pub fn rows(&self) -> &Table<A::Row>
        ensures { result.now ≡ self.now }
    {
        &self.rows
    }

    /// All rows with their keys, in ascending order of the keys: `from_rows` takes them, and has the same rows again. Refused for
    /// want of memory.
    pub fn to_rows(&self, alloc: Global) -> Result<Vec<(Key, A::Row)>, AllocError>
        ensures rows { IfOk result (λ rows. rows.items ≡ map.entries self.now) }
        ensures whole { IfOk result (λ rows. overwritten map.empty rows.items ≡ self.now) }
        ensures distinct { IfOk result (λ rows. are_distinct (keys_of rows.items) ≡ true) }
    {
        self.rows.to_vec(alloc)
    }

    /// Runs one request: it is answered `Changed` where its declared sets aren't, key for key, those that it needs on
    /// the rows of its declared reads. Refused for want of memory alone, where it writes
    /// something, and then nothing has changed.
    #[tactic(auto, unfolding(crate::specs::Serial::answer_on, crate::specs::Serial::writes_on))]
    pub fn apply(&mut self, txn: &Txn<A::Args>) -> Result<Answer<A::Reply>, Fault>
        ensures answer { IfOk result (λ answer. answer ≡ answer_one A.meaning txn.now self.old) }
        ensures ok { OnOk result (self.new ≡ after_one A.meaning txn.now self.old) }
        ensures err { OnErr result (self.new ≡ self.old) }

        // A request with the sets that it needs of all rows is run.
        ensures fresh { A.meaning.needs txn.now.args self.old ≡ txn.now.sets → result ≢ Ok Changed }
        ensures only { IsOkUnless result Fault.OutOfMemory }
        ensures succeeds { writes_on A.meaning txn.now (view self.old txn.now.sets.reads) ≡ [] → IsOk result }
    {
        let mut seen = View::new();
        let mut answer = Answer::Changed;
        let mut writes = Writes::new();
        self.apply_into(txn, &mut seen, &mut answer, &mut writes)?;
        Ok(answer)
    }

    /// Runs one request as `apply` does, in places that the caller keeps for one request after another: what it sees,
    /// its answer and what it writes come in place of those that are there, so that large ones needn't be made and
    /// moved. Where it is refused, any view, answer and writes may stand there.
    #[tactic(auto, unfolding(crate::specs::Serial::answer_on, crate::specs::Serial::writes_on))]
    pub fn apply_into(
        &mut self,
        txn: &Txn<A::Args>,
        seen: &mut View<A::Row>,
        answer: &mut Answer<A::Reply>,
        writes: &mut Writes<A::Row>,
    ) -> Result<(), Fault>
        ensures answer { OnOk result (answer.new ≡ answer_one A.meaning txn.now self.old) }
        ensures ok { OnOk result (self.new ≡ after_one A.meaning txn.now self.old) }
        ensures err { OnErr result (self.new ≡ self.old) }

        // A request with the sets that it needs of all rows is run.
        ensures fresh { A.meaning.needs txn.now.args self.old ≡ txn.now.sets → OnOk result (answer.new ≢ Changed) }
        ensures only { IsOkUnless result Fault.OutOfMemory }
        ensures succeeds { writes_on A.meaning txn.now (view self.old txn.now.sets.reads) ≡ [] → IsOk result }
    {
        self.apply_parts(&txn.args, &txn.sets, seen, answer, writes)
    }

    /// Runs one request as `apply_into` does, of which the arguments and the sets are given, wherever they lie: what comes
    /// of it doesn't depend on its name.
    #[tactic(auto, unfolding(crate::specs::Serial::answer_on, crate::specs::Serial::writes_on))]
    pub fn apply_parts(
        &mut self,
        args: &A::Args,
        sets: &Sets,
        seen: &mut View<A::Row>,
        answer: &mut Answer<A::Reply>,
        writes: &mut Writes<A::Row>,
    ) -> Result<(), Fault>
        ensures answer { OnOk result (answer.new ≡ answer_one A.meaning (nameless args.now sets.now) self.old) }
        ensures ok { OnOk result (self.new ≡ after_one A.meaning (nameless args.now sets.now) self.old) }
        ensures err { OnErr result (self.new ≡ self.old) }

        // A request with the sets that it needs of all rows is run.
        ensures fresh { A.meaning.needs args.now self.old ≡ sets.now → OnOk result (answer.new ≢ Changed) }
        ensures only { IsOkUnless result Fault.OutOfMemory }
        ensures succeeds { writes_on A.meaning (nameless args.now sets.now) (view self.old sets.now.reads) ≡ [] → IsOk result }
    {
        self.see(&sets.reads, seen);
        if !self.app.needs_only(args, seen, sets) {
            tell_changed(answer);
            return Ok(());
        }
        self.run_seen(args, seen, answer, writes)
    }

    /// Whether the sets that arguments need may depend on rows.
    pub fn is_dependent(&self, args: &A::Args) -> bool
        ensures { result ≡ A.is_dependent args.now }
    {
        self.app.dependent(args)
    }

    /// Runs one request as `apply_parts` does, of which the sets are those that it needs where no row is known, and don't
    /// depend on rows: they aren't compared with those that it needs, so the keys that it reads are enough.
    pub fn apply_first(
        &mut self,
        args: &A::Args,
        reads: &KeySet,
        seen: &mut View<A::Row>,
        answer: &mut Answer<A::Reply>,
        writes: &mut Writes<A::Row>,
    ) -> Result<(), Fault>
        requires first { (A.meaning.needs args.now map.empty).reads ≡ reads.now }
        requires fixed { A.is_dependent args.now ≡ false }
        ensures answer { OnOk result (answer.new ≡ answer_one A.meaning (nameless args.now (A.meaning.needs args.now map.empty)) self.old) }
        ensures ok { OnOk result (self.new ≡ after_one A.meaning (nameless args.now (A.meaning.needs args.now map.empty)) self.old) }
        ensures err { OnErr result (self.new ≡ self.old) }
        ensures only { IsOkUnless result Fault.OutOfMemory }
        ensures succeeds { writes_on A.meaning (nameless args.now (A.meaning.needs args.now map.empty)) (view self.old (A.meaning.needs args.now map.empty).reads) ≡ [] → IsOk result }
    {
        self.see(reads, seen);
        self.run_seen(args, seen, answer, writes)
    }

    /// Puts the rows of the declared reads in place of those that were seen.
    fn see(&self, reads: &KeySet, seen: &mut View<A::Row>)
        ensures { seen.new ≡ view self.now reads.now }
    {
        seen.clear();
        self.rows.look_up(reads, seen);
    }

    /// Runs a request on what it sees, which are rows under the keys that it needs.
    fn run_seen(
        &mut self,
        args: &A::Args,
        seen: &View<A::Row>,
        answer: &mut Answer<A::Reply>,
        writes: &mut Writes<A::Row>,
    ) -> Result<(), Fault>
        ensures answer { answer.new ≡ Reply (A.meaning.outcome args.now seen.now).0 }
        ensures ok { OnOk result (self.new ≡ overwritten self.old (A.meaning.outcome args.now seen.now).1) }
        ensures err { OnErr result (self.new ≡ self.old) }
        ensures only { IsOkUnless result Fault.OutOfMemory }
        ensures succeeds { (A.meaning.outcome args.now seen.now).1 ≡ [] → IsOk result }
    {
        writes.clear();
        self.app.run_into(args, seen, answer, writes);
        self.rows.overwrite(writes)
    }
}

/// Puts in place of an answer that the declared sets aren't those that are needed. It stands apart, so that a request
/// that isn't answered so pays for no answer of its own.
#[inline(never)]
fn tell_changed<R: Copy>(answer: &mut Answer<R>)
    ensures { answer.new ≡ Changed }
{
    *answer = Answer::Changed;
}
