//! The book.
ghost use Rattle.std.specs.Prelude.{◌≡◌, ◌⊎◌, ℕ, ◌^◌, [], IfOk, IsTrue, MatchOption, OnOk, OnErr, MatchBool, IsOkUnless, Result, Ok, Err};
ghost use Rattle.calvin_types.specs.declared.fault.Fault.TheVariants.{OutOfMemory};
ghost use Rattle.calvin_types.specs.declared.txn.Txn.{Txn};
ghost use Rattle.calvin_order.specs.Configs.{config_of};
ghost use Rattle.calvin_node_acts.specs.declared.act.Act.TheVariants.{Finish, Submit};
ghost use Rattle.calvin_world.specs.declared.event.Event.TheVariants.{At};
ghost use Rattle.calvin_world.specs.Histories.{EverStays, WasSubmitted, SubmittedBefore, StandsInTime, StandsLater};
ghost use Rattle.calvin_world.specs.Jobs.{job_of, IsNotFinished};
ghost use Rattle.calvin_world.specs.Promises.{Agrees, IsSerial, PointsAreSerial, StandAlike};
ghost use Rattle.calvin_world.specs.RunningWorlds.{IsReached};
ghost use Rattle.calvin_world.specs.SettledWorlds.{settled_world};
ghost use Rattle.calvin_world.specs.Worlds.{WorldState, node_at};
ghost use Rattle.calvin_book.specs.Books.{IsRun, world_after, Applied, IsRefused};
ghost use Rattle.calvin_book.specs.Receipts.{IsAbove, IsOpenTo, IsNotTaken, IsSubmitEvent, IsSubmitted, IsUnheard, IsLookedFor, IsAnswer};

use crate::event_list::EventList;
use crate::receipt::{Look, Submission};
use crate::replies::first_reply;
use calvin_app::{Answer, App, Computed, Job};
use calvin_lock::{Locks, QueueLocks};
use calvin_node::Act;
use calvin_store::{ColdRows, Rows};
use calvin_types::{Config, Fault, NodeId, Place, Txn};
use calvin_world::{Event, World};
use std::alloc::Global;
use std::marker::Model;

/// A world with the events that led to it from the opening, each of which took effect. To a contract it is what was opened, and
/// these events: they determine the world.
#[derive(Drop)]
pub struct Book<A: App + Drop, L: Locks + Drop, S: Rows<A::Row> + Drop> {
    world: World<A, L, S>,
    events: EventList<A::Args>,
    /// How many packets had been sent after each event.
    sent: Vec<usize>,
}

/// A book of a world as the commands run it (`StoreWorld`).
pub type StoreBook<A> = Book<A, QueueLocks, ColdRows<<A as App>::Row>>;

impl<A: App + Drop, L: Locks + Drop, S: Rows<A::Row> + Drop> Model for Book<A, L, S> {
    ghost use Rattle.std.specs.Coded.{codes};
    ghost use Rattle.std.specs.FinMap.{code};
    ghost use Rattle.calvin_book.specs.Books.{Log, IsRun, CountsSent};

    ghost Value = { Log A.Args };

    ghost coded = { Prim.hlevel (codes, code) };

    ghost view = { λ b. record { config = b.world.config; events = b.events.items } };

    ghost invariant = { λ b. IsRun A.meaning b.world.config b.events.items b.world × CountsSent A.meaning b.world.config b.events.items b.sent.items };
}

impl<A: App + Drop, L: Locks + Drop, S: Rows<A::Row> + Drop> Book<A, L, S> {
    /// A store of new nodes, in which nothing happened. Refused with `OutOfMemory` where there was no room for the nodes.
    pub fn new(alloc: Global, config: &Config, app: A) -> Result<Book<A, L, S>, Fault>
        ensures ok { IfOk result (λ b. b ≡ record { config = config_of config.now S.points S.cold; events = [] }) }
        ensures only { IsOkUnless result OutOfMemory }
    {
        let world = World::new(alloc, config, app)?;
        Ok(Book {
            world,
            events: EventList::new(alloc),
            sent: Vec::new(alloc),
        })
    }

    /// The events, in the order in which they happened.
    pub fn events(&self) -> &EventList<A::Args>
        ensures { result.now.items ≡ self.now.events }
    {
        &self.events
    }

    /// The world that they led to. What is promised of every list of events (`World::run`) is promised of it.
    pub fn world(&self) -> &World<A, L, S>
        ensures after { result.now ≡ world_after A.meaning self.now.config self.now.events }
        ensures run { IsRun A.meaning self.now.config self.now.events result.now }
        ensures agrees { (w : WorldState A.Args A.Row A.Reply) × Agrees w × (result.now ≡ settled_world w) }
        ensures serial { IsSerial A.meaning result.now }
        ensures points { PointsAreSerial A.meaning result.now }
        ensures alike { StandAlike result.now }
        ensures reached { IsReached A.meaning result.now }
        ensures ever { EverStays A.meaning result.now }
        ensures submitted { WasSubmitted A.meaning result.now }
        ensures before { SubmittedBefore A.meaning result.now }
        ensures in_time { StandsInTime A.meaning result.now }
        ensures later { StandsLater A.meaning result.now }
    {
        &self.world
    }

    /// An event happens, and is the book's last one. Refused as `World::step` is, or with `OutOfMemory` where there was no room
    /// for it in the book. Where it is refused nothing changed.
    pub fn apply(&mut self, event: &Event<A::Args>) -> Result<(), Fault>
        ensures ok { OnOk result (Applied A.meaning self.old event.now self.new) }
        ensures err { OnErr result (self.new ≡ self.old) }
        ensures only { (fault : Fault) → result ≡ Err fault → IsRefused A.meaning self.old event.now fault }
    {
        self.events.reserve()?;
        self.sent.reserve(1)?;
        self.world.step(event)?;
        self.events.push_reserved(event);
        self.sent.push_reserved(self.world.packets().len());
        Ok(())
    }

    /// What is to be run at a place of a node, by whoever. Refused as `World::job` is: with `NoNode` where the node isn't there,
    /// else as `Node::job` is.
    pub fn job(&self, id: NodeId, place: Place) -> Result<Job<A::Args, A::Row>, Fault>
        ensures { result ≡ job_of (world_after A.meaning self.now.config self.now.events) id place }
    {
        self.world.job(id, place)
    }

    /// Takes what came of a node's job: the event `Finish` of its place happens. Refused with `NoNode` where the node isn't
    /// there, with `NotCollected` where no job is due at the place, with `StaleJob` where another one is, and with
    /// `OutOfMemory` where a growth was refused, also one of the book. Where it is refused nothing changed.
    pub fn finish_with(&mut self, id: NodeId, computed: &Computed<A>) -> Result<(), Fault>
        ensures due { OnOk result (job_of (world_after A.meaning self.old.config self.old.events) id computed.now.job.place ≡ Ok computed.now.job) }
        ensures ok { OnOk result (Applied A.meaning self.old (At id (Finish computed.now.job.place)) self.new) }
        ensures err { OnErr result (self.new ≡ self.old) }
        ensures only { (fault : Fault) → result ≡ Err fault
            → IsNotFinished self.old.config computed.now.job (node_at (world_after A.meaning self.old.config self.old.events) id) fault
            ⊎ (fault ≡ OutOfMemory) }
    {
        self.events.reserve()?;
        self.sent.reserve(1)?;
        self.world.finish_with(id, computed)?;
        self.events
            .push_reserved(&Event::At(id, Act::Finish(computed.job.place)));
        self.sent.push_reserved(self.world.packets().len());
        Ok(())
    }

    /// A request is submitted at a node, for a caller that had been told of an epoch, if of any: the event `Submit` happens.
    /// Refused with `NoNode` where the node isn't there, with `Stale` where its next epoch isn't above the told one, else as
    /// `Node::submit` is, or with `OutOfMemory` where there was no room for it in the book. Where it is refused nothing changed.
    pub fn submit(
        &mut self,
        id: NodeId,
        txn: Txn<A::Args>,
        told: Option<u64>,
    ) -> Result<Submission<A::Args>, Fault>
        ensures is { IfOk result (λ s. (s.node ≡ id) × (s.txn ≡ txn) × (s.told ≡ told)) }
        ensures submitted { IfOk result (λ s. IsSubmitted A.meaning self.new s) }
        ensures ok { OnOk result (Applied A.meaning self.old (At id (Submit txn)) self.new) }
        ensures err { OnErr result (self.new ≡ self.old) }
        ensures only { (fault : Fault) → result ≡ Err fault → IsNotTaken (node_at (world_after A.meaning self.old.config self.old.events) id) txn told fault }
    {
        self.check_told(id, told)?;
        let number = self.events.len();
        self.apply(&Event::At(id, Act::Submit(txn)))?;
        Ok(Submission {
            number,
            node: id,
            txn,
            told,
        })
    }

    /// Refused with `NoNode` where the node isn't there, and with `Stale` where its next epoch isn't above the told one.
    fn check_told(&self, id: NodeId, told: Option<u64>) -> Result<(), Fault>
        ensures ok { OnOk result (IsOpenTo (world_after A.meaning self.now.config self.now.events) id told) }
        ensures only { (fault : Fault) → result ≡ Err fault → (t : Txn A.Args) → IsNotTaken (node_at (world_after A.meaning self.now.config self.now.events) id) t told fault }
    {
        let Some(node) = self.world.node(id) else {
            return Err(Fault::NoNode);
        };
        if !is_above(told, node.next_epoch()) {
            return Err(Fault::Stale);
        }
        Ok(())
    }

    /// The answer of the first reply to a submission's request that was sent after its event: none too where this book's event
    /// of its number isn't that submission.
    pub fn answer(&self, submission: &Submission<A::Args>) -> Option<Answer<A::Reply>>
        ensures { IsAnswer A.meaning self.now submission.now result }
    {
        match self.look(submission, 0) {
            Look::Found(_, answer) => Some(answer),
            Look::NotYet(_) => None,
        }
    }

    /// A look for that reply among the packets from a number on: from 0, or from where an earlier look at this book ended, so that
    /// whoever looks again and again sees each packet once. What it finds is exact where none of the packets before that number is
    /// a reply to it.
    pub fn look(&self, submission: &Submission<A::Args>, from: usize) -> Look<A::Reply>
        ensures { IsUnheard A.meaning self.now submission.now from → IsLookedFor A.meaning self.now submission.now result }
    {
        if !self.submits(submission) {
            return Look::NotYet(from);
        }
        let Some(sent) = self.sent.get(submission.number) else {
            return Look::NotYet(from);
        };
        let txn = &submission.txn;
        let packets = self.world.packets();
        match first_reply(txn.id, txn.attempt, packets, from.max(*sent)) {
            Some((place, answer)) => Look::Found(place, answer),
            None => Look::NotYet(packets.len()),
        }
    }

    /// Whether the event of its number is this submission.
    fn submits(&self, submission: &Submission<A::Args>) -> bool
        ensures { MatchBool result (IsSubmitEvent self.now submission.now) (IsSubmitEvent self.now submission.now → ⊥) }
    {
        match self.events.get(submission.number) {
            Some(event) => is_submission::<A>(&event, submission),
            None => false,
        }
    }
}

/// Whether a node's next epoch, if one is left, is above the one that was told.
fn is_above(told: Option<u64>, next: Option<u64>) -> bool
    ensures { (n : ℕ) → MatchOption next (n ≡ 2 ^ 64) (λ epoch. epoch ≡ n) → MatchBool result (IsAbove told n) (IsAbove told n → ⊥) }
{
    let Some(told) = told else {
        return true;
    };
    let Some(next) = next else {
        return true;
    };
    told < next
}

/// Whether an event submits this request at this node.
fn is_submission<A: App>(event: &Event<A::Args>, submission: &Submission<A::Args>) -> bool
    ensures { MatchBool result (event.now ≡ At submission.now.node (Submit submission.now.txn)) (event.now ≡ At submission.now.node (Submit submission.now.txn) → ⊥) }
{
    let Event::At(at, Act::Submit(asked)) = event else {
        return false;
    };
    if at.replica != submission.node.replica || at.partition != submission.node.partition {
        return false;
    }
    is_same_txn::<A>(asked, &submission.txn)
}

/// Whether two requests are the same.
fn is_same_txn<A: App>(one: &Txn<A::Args>, other: &Txn<A::Args>) -> bool
    ensures { MatchBool result (one.now ≡ other.now) (one.now ≡ other.now → ⊥) }
{
    *one == *other
}
