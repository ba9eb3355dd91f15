//! Events as a script keeps them.
ghost use Rattle.std.specs.Prelude.{◌≡◌};
ghost use Rattle.calvin_script_events.specs.EventForms.{act_of, event_of};

use calvin_node::Act;
use calvin_script::{Kept, Operation};
use calvin_types::{Key, NodeId, Place, Slot};
use calvin_world::Event;

/// One of a node's own events, as `Act` has them. `R` is how a request is kept: `Kept` for what is read. A request lies
/// apart from its event, so that a list of events takes little room.
#[derive(Drop)]
pub enum ListedAct<R> {
    Submit(Box<R>),
    SubmitCold(Box<R>),
    Cool(Key),
    Close,
    Merge,
    Lock,
    Restart,
    Propose(u64),
    Snapshot(u64),
    Mark(u64),
    Begin(Place),
    Finish(Place),
    AskForReads(Place, u8),
    AskForBatch(Slot, NodeId),
}

/// One event of a script.
#[derive(Drop)]
pub enum ListedEvent<R> {
    /// One of a node's own events.
    At(NodeId, ListedAct<R>),
    /// The packet of this number comes to the node that it is for.
    Deliver(usize),
}

impl<Op: Operation> ListedAct<Kept<Op>> {
    /// The event itself, with its request whole.
    pub fn act(&self) -> Act<Op>
        ensures { result ≡ act_of self.now }
    {
        match self {
            ListedAct::Submit(request) => Act::Submit(request.txn()),
            ListedAct::SubmitCold(request) => Act::SubmitCold(request.txn()),
            ListedAct::Cool(key) => Act::Cool(*key),
            ListedAct::Close => Act::Close,
            ListedAct::Merge => Act::Merge,
            ListedAct::Lock => Act::Lock,
            ListedAct::Restart => Act::Restart,
            ListedAct::Propose(epoch) => Act::Propose(*epoch),
            ListedAct::Snapshot(epoch) => Act::Snapshot(*epoch),
            ListedAct::Mark(epoch) => Act::Mark(*epoch),
            ListedAct::Begin(place) => Act::Begin(*place),
            ListedAct::Finish(place) => Act::Finish(*place),
            ListedAct::AskForReads(place, replica) => Act::AskForReads(*place, *replica),
            ListedAct::AskForBatch(slot, of) => Act::AskForBatch(*slot, *of),
        }
    }
}

impl<Op: Operation> ListedEvent<Kept<Op>> {
    /// The event itself, as a world takes it.
    pub fn event(&self) -> Event<Op>
        ensures { result ≡ event_of self.now }
    {
        match self {
            ListedEvent::At(id, act) => Event::At(*id, act.act()),
            ListedEvent::Deliver(number) => Event::Deliver(*number),
        }
    }
}
