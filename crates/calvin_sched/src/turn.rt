//! An admitted request.
ghost use Rattle.std.specs.Prelude.{◌≡◌, if◌then◌else◌, ◌<◌, ◌≤◌, ◌-◌, ◌||◌, is_some, Some, max, length, IsTrue, IfOk, OnOk, OnErr, IsOkUnless};
ghost use Rattle.std.specs.List.{list_all};
ghost use Rattle.std.specs.FinMap as map;
ghost use Rattle.calvin_types.specs.Keys.{partition_of};
ghost use Rattle.calvin_types.specs.Participants.{site, is_local, local_keys};
ghost use Rattle.calvin_app.specs.Rows.{view};
ghost use Rattle.calvin_sched.specs.Keeping.{awaited};
ghost use Rattle.calvin_sched.specs.Scheduling.{new_turn, is_finished, awaits, is_collected, piece, whole_view, other_active, serves_others};
ghost use Rattle.calvin_sched.specs.Steps.{begun_turn, serving, with_rows};
ghost use Rattle.calvin_sched.specs.declared.phase.Phase.TheVariants.{Begun, Done};

use crate::came::Came;
use crate::phase::Phase;
use crate::reading::Reading;
use crate::serving::Serving;
use crate::sites::{running, storing};
use calvin_app::{App, View};
use calvin_row_list::RowList;
use calvin_shared_txn::SharedTxn;
use calvin_store::Rows;
use calvin_types::{Config, Fault, Few, Key, KeySet, Txn};
use std::alloc::Global;
use std::marker::Model;

/// An admitted request at one partition: how far it is, the rows that were read here, and those that came from other
/// partitions. Contracts see also for how many more partitions' rows there is room. The request isn't copied, and there is room
/// for the rows of all keys that it reads, so that it begins without more memory.
#[derive(Drop)]
pub struct Turn<A: App> {
    request: SharedTxn<A::Args>,
    served: RowList<A::Row>,
    phase: Phase,
    came: Came<A>,
}

impl<A: App> Model for Turn<A> {
    ghost use Rattle.std.specs.Prelude.{◌≡◌, ◌≤◌, length};
    ghost use Rattle.calvin_sched.specs.Keeping.{Kept};
    ghost use Rattle.calvin_sched.specs.Scheduling.{gathered};
    ghost use Rattle.std.specs.Coded.{codes};
    ghost use Rattle.std.specs.FinMap.{code};

    ghost Value = { Kept A.Args A.Row };

    ghost coded = { Prim.hlevel (codes, code) };

    ghost view = { λ t. record {
      turn = record { request = t.request; phase = t.phase; served = t.served.rows; came = t.came.rows };
      room = t.came.room;
    } };

    ghost invariant = { λ t. (gathered (λ _. t.served.rows) t.request.sets.reads ≡ t.served.rows) × (length t.request.sets.reads ≤ t.served.room) };
}

impl<A: App> Turn<A> {
    /// A request that waits for its locks. Refused with `OutOfMemory` where there is no memory for the rows that it reads.
    pub(crate) fn new(alloc: Global, request: SharedTxn<A::Args>) -> Result<Turn<A>, Fault>
        ensures turn { IfOk result (λ k. k.turn ≡ new_turn request) }
        ensures only { IsOkUnless result Fault.OutOfMemory }
    {
        let mut served = RowList::new(alloc);
        served.reserve(request.get().sets.reads.len())?;
        Ok(Turn {
            request,
            served,
            phase: Phase::Waiting,
            came: Came::new(alloc),
        })
    }

    /// Room for the rows of some more partitions.
    pub(crate) fn reserve(&mut self, partitions: usize) -> Result<(), Fault>
        ensures ok { OnOk result (self.new ≡ record self.old { room = max partitions self.old.room }) }
        ensures err { OnErr result (self.new ≡ self.old) }
        ensures only { IsOkUnless result Fault.OutOfMemory }
    {
        self.came.reserve(partitions)?;
        Ok(())
    }

    /// The request.
    pub fn txn(&self) -> &Txn<A::Args>
        ensures { result.now ≡ self.now.turn.request }
    {
        self.request.get()
    }

    /// The keys that it reads.
    fn reads(&self) -> &KeySet
        ensures { result.now ≡ self.now.turn.request.sets.reads }
    {
        &self.request.get().sets.reads
    }

    /// How far it is.
    pub fn phase(&self) -> Phase
        ensures { result ≡ self.now.turn.phase }
    {
        self.phase
    }

    /// Whether it did all that it does here.
    pub fn is_done(&self) -> bool
        ensures { result ≡ is_finished self.now.turn.phase }
    {
        self.phase == Phase::Done
    }

    /// The rows that were read here, where they stand.
    pub fn rows(&self) -> &RowList<A::Row>
        ensures { result.now.rows ≡ self.now.turn.served }
    {
        &self.served
    }

    /// The rows that were read here, as a view.
    pub fn served(&self) -> View<A::Row>
        ensures { result ≡ self.now.turn.served }
    {
        self.served.view()
    }

    /// Puts the rows that were read here among those of a view, of which there are none yet.
    pub(crate) fn put_served(&self, view: &mut View<A::Row>)
        requires { view.old ≡ map.empty }
        ensures { view.new ≡ self.now.turn.served }
    {
        self.served.put_into(view);
    }

    /// Whether rows of another partition are still to come.
    pub(crate) fn awaits(&self, config: &Config, partition: u8, from: u8) -> bool
        ensures { result ≡ awaits (site config.now.partitions partition) self.now.turn from }
    {
        if from == partition || !self.reads().has_local(config, from) {
            return false;
        }
        if self.phase == Phase::Done || !self.txn().is_active(config, partition) {
            return false;
        }
        !self.came.has(from)
    }

    /// Of how many partitions rows are still to come: none, where all keys that it reads are stored here, or it isn't run here.
    pub(crate) fn count_awaited(&self, config: &Config, partition: u8) -> usize
        ensures { result ≡ length (awaited (site config.now.partitions partition) self.now.turn) }
    {
        if self.are_reads_here(config, partition) {
            return 0;
        }
        if !self.txn().is_active(config, partition) {
            return 0;
        }
        if self.is_done() {
            return 0;
        }
        let sends = storing(self.reads(), config);
        let mut count = 0;
        for from in 0..config.partitions {
            if from != partition && sends[from as usize] && !self.came.has(from) {
                count += 1;
            }
        }
        count
    }

    /// Whether the row of a key that is read is there: it was read here, or came from the partition that stores it.
    fn has_piece(&self, config: &Config, partition: u8, key: &Key) -> bool
        ensures { result ≡ (is_local (site config.now.partitions partition) key.now || is_some (map.get self.now.turn.came (partition_of config.now.partitions key.now))) }
    {
        let from = config.partition_of(key);
        if from == partition {
            return true;
        }
        self.came.has(from)
    }

    /// Whether all rows came that are read elsewhere.
    pub(crate) fn is_collected(&self, config: &Config, partition: u8) -> bool
        ensures { result ≡ is_collected (site config.now.partitions partition) self.now.turn }
    {
        let keys = self.reads();
        for i in 0..keys.len() {
            if !self.has_piece(config, partition, &keys.at(i)) {
                return false;
            }
        }
        true
    }

    /// The row of a key that is read: it was read here, or came from the partition that stores it.
    fn piece(&self, config: &Config, partition: u8, key: &Key) -> Option<A::Row>
        ensures { result ≡ map.get (piece (site config.now.partitions partition) self.now.turn key.now) key.now }
    {
        let from = config.partition_of(key);
        if from == partition {
            return self.served.get(key);
        }
        self.came.row(from, key)
    }

    /// Whether what was read here are the rows of all keys that it reads, as all of these are stored here.
    pub(crate) fn reads_here_alone(&self, config: &Config, partition: u8) -> bool
        ensures { IsTrue result → whole_view (site config.now.partitions partition) self.now.turn ≡ self.now.turn.served }
    {
        // To read a field shows the prover that what was served are rows of its reads.
        let _phase = self.phase;
        self.are_reads_here(config, partition)
    }

    /// Whether all keys that it reads are stored here.
    fn are_reads_here(&self, config: &Config, partition: u8) -> bool
        ensures { result ≡ list_all (is_local (site config.now.partitions partition)) self.now.turn.request.sets.reads }
    {
        are_here(self.reads(), config, partition)
    }

    /// The rows of all keys that are read.
    pub(crate) fn whole_view(&self, config: &Config, partition: u8) -> View<A::Row>
        ensures { result ≡ whole_view (site config.now.partitions partition) self.now.turn }
    {
        let mut view = View::new();
        self.put_whole(config, partition, &mut view);
        view
    }

    /// Puts the rows of all keys that are read among those of a view, of which there are none yet.
    pub(crate) fn put_whole(&self, config: &Config, partition: u8, view: &mut View<A::Row>)
        requires { view.old ≡ map.empty }
        ensures { view.new ≡ whole_view (site config.now.partitions partition) self.now.turn }
    {
        let keys = self.reads();
        for done in 0..keys.len() {
            let key = keys.at(keys.len() - 1 - done);
            match self.piece(config, partition, &key) {
                Some(row) => view.put(key, row),
                None => {}
            }
        }
    }

    /// The other partitions that run the request, ascending.
    pub fn others(&self, config: &Config, partition: u8) -> Few<u8>
        ensures { result ≡ other_active (site config.now.partitions partition) self.now.turn.request }
    {
        let runs = running(self.txn(), config);
        let mut others = Few::new();
        for other in 0..config.partitions {
            if other != partition && runs[other as usize] {
                others.push(other);
            }
        }
        others
    }

    /// Whether it reads a key that is stored here, and another partition runs it too: it writes a key elsewhere, or a partition
    /// of lesser number takes part.
    pub(crate) fn serves_others(&self, config: &Config, partition: u8) -> bool
        ensures { result ≡ serves_others (site config.now.partitions partition) (Some self.now.turn) }
    {
        let txn = self.txn();
        if !txn.sets.reads.has_local(config, partition) {
            return false;
        }
        if !are_here(&txn.sets.writes, config, partition) {
            return true;
        }
        !txn.sets.reads.is_none_below(config, partition)
    }

    /// Reads what is stored here.
    pub(crate) fn read<S: Rows<A::Row>>(&mut self, config: &Config, partition: u8, rows: &S)
        ensures turn { self.new.turn ≡ record self.old.turn { served = view (S.store rows.now).map (local_keys (site config.now.partitions partition) self.old.turn.request.sets.reads) } }
        ensures room { self.new.room ≡ self.old.room }
    {
        let here = Reading {
            rows,
            config,
            partition,
        };
        self.served.read(&here, &self.request.get().sets.reads);
    }

    /// Reads what is stored here. Where the request is passive here it is done, as others run it.
    pub(crate) fn begin<S: Rows<A::Row>>(&mut self, config: &Config, partition: u8, rows: &S)
        ensures turn { self.new.turn ≡ begun_turn (site config.now.partitions partition) (S.store rows.now).map self.old.turn }
        ensures room { self.new.room ≡ self.old.room }
    {
        let is_active = self.txn().is_active(config, partition);
        self.read(config, partition, rows);
        self.phase = phase_after_reading(is_active);
    }

    /// The request, the rows that were read here, and the other partitions that run it.
    pub fn serving(&self, config: &Config, partition: u8) -> Serving<A>
        ensures { result ≡ serving (site config.now.partitions partition) self.now.turn }
    {
        Serving {
            txn: *self.txn(),
            rows: self.served(),
            others: self.others(config, partition),
        }
    }

    /// Keeps the rows that came from another partition. There is room for them.
    pub(crate) fn receive(&mut self, from: u8, rows: &View<A::Row>)
        requires { 0 < self.old.room }
        ensures turn { self.new.turn ≡ with_rows from rows.now self.old.turn }
        ensures room { self.new.room ≡ self.old.room - 1 }
    {
        self.came.insert(from, rows);
    }

    /// It did all that it does here.
    pub(crate) fn finish(&mut self)
        ensures turn { self.new.turn ≡ record self.old.turn { phase = Done } }
        ensures room { self.new.room ≡ self.old.room }
    {
        self.phase = Phase::Done;
    }
}

/// Whether all of these keys are stored in a partition.
fn are_here(keys: &KeySet, config: &Config, partition: u8) -> bool
    ensures { result ≡ list_all (is_local (site config.now.partitions partition)) keys.now }
{
    for i in 0..keys.len() {
        if config.partition_of(&keys.at(i)) != partition {
            return false;
        }
    }
    true
}

/// How far a request is once it has read what is stored here: a passive one is done.
fn phase_after_reading(is_active: bool) -> Phase
    ensures { result ≡ (if is_active then Begun else Done) }
{
    if is_active { Phase::Begun } else { Phase::Done }
}
