//! One list of events from the histories of all nodes.
ghost use Rattle.std.specs.Prelude.{◌≡◌, ℕ, ◌<◌, ◌*◌, length, true, false, IfOk, IfErr, OnOk, IsOkUnless, Ok};
ghost use Rattle.calvin_order.specs.Configs.{config_of};
ghost use Rattle.calvin_book.specs.Books.{world_after};
ghost use Rattle.calvin_histories.specs.Histories.{Fits, IsAssembled, IsUnassembled, fault_of};
ghost use Rattle.calvin_histories.specs.Assembling.{Took, IsBegun, IsIndexed, IsStuckAt};

use crate::entry::{Entry, History};
use crate::fitting::event_of;
use crate::senders::Senders;
use calvin_app::App;
use calvin_book::Book;
use calvin_lock::Locks;
use calvin_store::Rows;
use calvin_types::{Config, Fault, NodeId};
use calvin_world::id_at;
use std::alloc::Global;

/// Why histories aren't assembled.
#[derive(Clone, Copy, Debug, PartialEq, Eq)]
pub enum Unassembled {
    /// `NoNode` where there isn't one history for each node, or `OutOfMemory`.
    Refused(Fault),
    /// No list of events gives them (`NoRun`): a list that was taken as far as it goes leaves entries over, first at this node,
    /// and the first of these has this number, from 0.
    NoRun { node: NodeId, entry: usize },
}

impl Unassembled {
    /// The refusal by its name.
    pub fn fault(self) -> Fault
        ensures { result ≡ fault_of self }
    {
        match self {
            Unassembled::Refused(fault) => fault,
            Unassembled::NoRun { .. } => Fault::NoRun,
        }
    }
}

/// The book of one list of events that at each node is that node's history, the histories standing replica by replica. Next
/// events are taken as long as some node's next entry fits: an event that takes effect is that entry, and its packet, if
/// one comes in it, was sent under this name and says this. Refused with `NoNode` where there isn't one history for each node,
/// with `NoRun` where entries are left that fit nowhere, and with `OutOfMemory`.
pub fn assemble<A: App + Drop, L: Locks + Drop, S: Rows<A::Row> + Drop>(
    alloc: Global,
    config: &Config,
    app: A,
    histories: &[History<A>],
) -> Result<Book<A, L, S>, Unassembled>
    ensures config { IfOk result (λ book. book.config ≡ config_of config.now S.points S.cold) }
    ensures ok { IfOk result (λ book. IsAssembled A.meaning book.config book.events histories.now) }
    ensures err { IfErr result (IsUnassembled A.meaning (config_of config.now S.points S.cold) histories.now) }
{
    if histories.len() != config.replicas as usize * config.partitions as usize {
        return Err(Unassembled::Refused(Fault::NoNode));
    }
    match Assembly::<A, L, S>::new(alloc, config, app, histories) {
        Ok(assembly) => assembly.run(histories),
        Err(fault) => Err(Unassembled::Refused(fault)),
    }
}

/// The list so far, and how many entries of each history are in it.
#[derive(Drop)]
struct Assembly<A: App + Drop, L: Locks + Drop, S: Rows<A::Row> + Drop> {
    config: Config,
    book: Book<A, L, S>,
    senders: Senders,
    taken: Vec<usize>,
}

impl<A: App + Drop, L: Locks + Drop, S: Rows<A::Row> + Drop> Assembly<A, L, S> {
    /// Nothing is taken. Refused with `OutOfMemory` alone.
    fn new(
        alloc: Global,
        config: &Config,
        app: A,
        histories: &[History<A>],
    ) -> Result<Assembly<A, L, S>, Fault>
        requires number { length histories.now ≡ config.now.replicas * config.now.partitions }
        ensures config { IfOk result (λ a. (a.config ≡ config.now) × (a.book.config ≡ config_of config.now S.points S.cold)) }
        ensures begun { IfOk result (λ a. IsBegun A.meaning a.book histories.now a.taken.items) }
        ensures listed { IfOk result (λ a. IsIndexed A.meaning a.book a.senders) }
        ensures only { IsOkUnless result Fault.OutOfMemory }
    {
        let book = Book::new(alloc, config, app)?;
        let senders = Senders::new(alloc, config)?;
        let taken = vec![in alloc; 0; histories.len()]?;
        Ok(Assembly {
            config: *config,
            book,
            senders,
            taken,
        })
    }

    /// Takes next entries as long as some node's next one fits.
    fn run(self, histories: &[History<A>]) -> Result<Book<A, L, S>, Unassembled>
        requires config { self.book.config ≡ config_of self.config S.points S.cold }
        requires number { length histories.now ≡ self.config.replicas * self.config.partitions }
        requires begun { IsBegun A.meaning self.book histories.now self.taken.items }
        requires listed { IsIndexed A.meaning self.book self.senders }
        ensures config { IfOk result (λ book. book.config ≡ self.book.config) }
        ensures ok { IfOk result (λ book. IsAssembled A.meaning book.config book.events histories.now) }
        ensures err { IfErr result (IsUnassembled A.meaning self.book.config histories.now) }
    {
        let mut assembly = self;
        for _ in 0..u64::MAX {
            match assembly.round(histories) {
                Ok(true) => {}
                Ok(false) => return assembly.end(histories),
                Err(fault) => return Err(Unassembled::Refused(fault)),
            }
        }
        Err(Unassembled::Refused(Fault::OutOfMemory))
    }

    /// Takes of each node in turn next entries as long as they fit, and says whether there was one. Refused with `OutOfMemory`
    /// alone.
    fn round(&mut self, histories: &[History<A>]) -> Result<bool, Fault>
        requires config { self.old.book.config ≡ config_of self.old.config S.points S.cold }
        requires number { length histories.now ≡ self.old.config.replicas * self.old.config.partitions }
        requires begun { IsBegun A.meaning self.old.book histories.now self.old.taken.items }
        requires listed { IsIndexed A.meaning self.old.book self.old.senders }
        ensures config { OnOk result ((self.new.config ≡ self.old.config) × (self.new.book.config ≡ self.old.book.config)) }
        ensures begun { OnOk result (IsBegun A.meaning self.new.book histories.now self.new.taken.items) }
        ensures listed { OnOk result (IsIndexed A.meaning self.new.book self.new.senders) }
        ensures stuck { result ≡ Ok false → (i : ℕ) → IsStuckAt A.meaning self.new.book histories.now self.new.taken.items i }
        ensures only { IsOkUnless result Fault.OutOfMemory }
    {
        let mut went = false;
        for at in 0..histories.len() {
            if self.take_of(at, histories)? {
                went = true;
            }
        }
        Ok(went)
    }

    /// Takes next entries of a node as long as they fit, and says whether there was one. Refused with `OutOfMemory` alone.
    fn take_of(&mut self, at: usize, histories: &[History<A>]) -> Result<bool, Fault>
        requires config { self.old.book.config ≡ config_of self.old.config S.points S.cold }
        requires number { length histories.now ≡ self.old.config.replicas * self.old.config.partitions }
        requires there { at < length histories.now }
        requires begun { IsBegun A.meaning self.old.book histories.now self.old.taken.items }
        requires listed { IsIndexed A.meaning self.old.book self.old.senders }
        ensures config { OnOk result ((self.new.config ≡ self.old.config) × (self.new.book.config ≡ self.old.book.config)) }
        ensures begun { OnOk result (IsBegun A.meaning self.new.book histories.now self.new.taken.items) }
        ensures listed { OnOk result (IsIndexed A.meaning self.new.book self.new.senders) }
        ensures stuck { OnOk result (IsStuckAt A.meaning self.new.book histories.now self.new.taken.items at) }
        ensures same { result ≡ Ok false → (self.new.book ≡ self.old.book) × (self.new.taken.items ≡ self.old.taken.items) }
        ensures only { IsOkUnless result Fault.OutOfMemory }
    {
        let id = id_at(&self.config, at);
        let first = self.taken[at];
        for number in first..histories[at].len() {
            let Some(entry) = histories[at].get(number) else {
                return Ok(first < number);
            };
            if !take(&mut self.book, &mut self.senders, id, entry)? {
                return Ok(first < number);
            }
            self.taken[at] = number + 1;
        }
        Ok(first < self.taken[at])
    }

    /// The book, where every entry is taken.
    fn end(self, histories: &[History<A>]) -> Result<Book<A, L, S>, Unassembled>
        requires config { self.book.config ≡ config_of self.config S.points S.cold }
        requires number { length histories.now ≡ self.config.replicas * self.config.partitions }
        requires begun { IsBegun A.meaning self.book histories.now self.taken.items }
        requires stuck { (i : ℕ) → IsStuckAt A.meaning self.book histories.now self.taken.items i }
        ensures config { IfOk result (λ book. book.config ≡ self.book.config) }
        ensures ok { IfOk result (λ book. IsAssembled A.meaning book.config book.events histories.now) }
        ensures err { IfErr result (IsUnassembled A.meaning self.book.config histories.now) }
    {
        let Assembly {
            config,
            book,
            taken,
            ..
        } = self;
        book.world();
        for at in 0..histories.len() {
            let entry = taken[at];
            if entry < histories[at].len() {
                let node = id_at(&config, at);
                return Err(Unassembled::NoRun { node, entry });
            }
        }
        Ok(book)
    }
}

/// The entry of a node happens next, if it fits, and whether it did. Refused with `OutOfMemory` alone.
fn take<A: App + Drop, L: Locks + Drop, S: Rows<A::Row> + Drop>(
    book: &mut Book<A, L, S>,
    senders: &mut Senders,
    id: NodeId,
    entry: &Entry<A::Args, A::Row, A::Reply>,
) -> Result<bool, Fault>
    requires listed { IsIndexed A.meaning book.old senders.old }
    ensures listed { OnOk result (IsIndexed A.meaning book.new senders.new) }
    ensures took { result ≡ Ok true → Took A.meaning book.old id entry.now book.new }
    ensures left { result ≡ Ok false → (book.new ≡ book.old) × (Fits A.meaning (world_after A.meaning book.old.config book.old.events) id entry.now → ⊥) }
    ensures only { IsOkUnless result Fault.OutOfMemory }
{
    let Some(event) = event_of(book.world(), senders, id, entry) else {
        return Ok(false);
    };
    match book.apply(&event) {
        Ok(()) => match senders.note_all(book.world().packets()) {
            Ok(()) => Ok(true),
            Err(fault) => Err(fault),
        },
        Err(fault) => match fault {
            Fault::OutOfMemory => Err(Fault::OutOfMemory),
            _ => Ok(false),
        },
    }
}
