//! The lines of nodes.
ghost use Rattle.std.specs.Prelude.{◌≡◌, ◌++◌, ◌∷◌, [], ℕ, List, Option, OnOk};
ghost use Rattle.calvin_report.specs.Reports.{epoch_text, node_line, line_of, node_lines, lesser, least, least_standing, is_lost, least_kept};
ghost use Rattle.calvin_report.specs.SoFar.{so_far, kept_epochs};
ghost use Rattle.calvin_node_acts.specs.NodeStates.{NodeState};

use calvin_app::App;
use calvin_lock::Locks;
use calvin_node::Node;
use calvin_store::Rows;
use calvin_text::push_number;
use calvin_types::NodeId;
use calvin_world::World;
use std::alloc::AllocError;

/// Adds an epoch, or that there is none.
fn push_epoch(text: &mut Vec<u8>, epoch: Option<u64>) -> Result<(), AllocError>
    ensures { OnOk result (text.new.items ≡ text.old.items ++ epoch_text epoch) }
{
    match epoch {
        Some(epoch) => push_number(text, epoch),
        None => text.extend_from_slice(b"none"),
    }
}

/// Adds the line of a node of this name, which stands at the end of this epoch and has so many rows.
fn push_line(
    text: &mut Vec<u8>,
    id: NodeId,
    last: Option<u64>,
    rows: usize,
) -> Result<(), AllocError>
    ensures { OnOk result (text.new.items ≡ text.old.items ++ node_line id last rows) }
{
    text.extend_from_slice(b"node ")?;
    push_number(text, id.replica as u64)?;
    text.extend_from_slice(b".")?;
    push_number(text, id.partition as u64)?;
    text.extend_from_slice(b" stands ")?;
    push_epoch(text, last)?;
    text.extend_from_slice(b" rows ")?;
    push_number(text, rows as u64)?;
    text.extend_from_slice(b"\n")
}

/// Adds the line of a node.
fn push_node<A: App, L: Locks + Drop, S: Rows<A::Row> + Drop>(
    text: &mut Vec<u8>,
    node: &Node<A, L, S>,
) -> Result<(), AllocError>
    ensures { OnOk result (text.new.items ≡ text.old.items ++ line_of node.now.state) }
{
    push_line(text, node.id(), node.stands_at(), node.rows().len())
}

/// Adds a line for each node, replica by replica: its name, the last epoch at whose end it stands, and how many rows it has.
pub fn push_nodes<A: App + Drop, L: Locks + Drop, S: Rows<A::Row> + Drop>(
    text: &mut Vec<u8>,
    world: &World<A, L, S>,
) -> Result<(), AllocError>
    ensures { OnOk result (text.new.items ≡ text.old.items ++ node_lines world.now) }
{
    for node in world.nodes() {
        push_node(text, node)?;
    }
    Ok(())
}

/// The lesser of two epochs; none where one is none.
fn lesser(a: Option<u64>, b: Option<u64>) -> Option<u64>
    ensures { result ≡ lesser a b }
{
    Some(a?.min(b?))
}

/// The least of the last epochs at whose ends the nodes stand. There is none where a node stands nowhere.
pub fn finished<A: App + Drop, L: Locks + Drop, S: Rows<A::Row> + Drop>(
    world: &World<A, L, S>,
) -> Option<u64>
    ensures { result ≡ least_standing world.now }
{
    let (first, others) = world.nodes().split_first()?;
    let mut least = first.stands_at();
    for node in others {
        least = lesser(least, node.stands_at());
    }
    least
}

/// Whether a replica is the one whose packets are lost, if there is one.
pub fn is_lost(lost: Option<u8>, replica: u8) -> bool
    ensures { result ≡ is_lost lost replica }
{
    match lost {
        Some(lost) => lost == replica,
        None => false,
    }
}

/// The least of the last epochs at whose ends the nodes stand that were looked at so far.
#[derive(Clone, Copy)]
enum Least {
    /// No node was.
    NoNode,
    /// The least of theirs; none where one stands nowhere.
    Of(Option<u64>),
}

impl Least {
    /// One more node was looked at.
    fn with(self, last: Option<u64>) -> Least
        ensures { (epochs : List (Option ℕ)) → self ≡ so_far epochs → result ≡ so_far (epochs ++ last ∷ []) }
    {
        match self {
            Least::NoNode => Least::Of(last),
            Least::Of(least) => Least::Of(lesser(least, last)),
        }
    }

    /// The epoch, none where no node was looked at.
    fn epoch(self) -> Option<u64>
        ensures { (epochs : List (Option ℕ)) → self ≡ so_far epochs → result ≡ least epochs }
    {
        match self {
            Least::NoNode => None,
            Least::Of(least) => least,
        }
    }
}

/// The least after one more node.
fn with_node<A: App, L: Locks + Drop, S: Rows<A::Row> + Drop>(
    least: Least,
    node: &Node<A, L, S>,
    lost: Option<u8>,
) -> Least
    ensures { (nodes : List (NodeState A.Args A.Row)) → least ≡ so_far (kept_epochs lost nodes) → result ≡ so_far (kept_epochs lost (nodes ++ node.now.state ∷ [])) }
{
    if is_lost(lost, node.id().replica) {
        return least;
    }
    least.with(node.stands_at())
}

/// The least of the last epochs at whose ends the nodes stand whose replica isn't the lost one. There is none where one of them
/// stands nowhere, and where there are no others.
pub fn finished_but<A: App + Drop, L: Locks + Drop, S: Rows<A::Row> + Drop>(
    world: &World<A, L, S>,
    lost: Option<u8>,
) -> Option<u64>
    ensures { result ≡ least_kept (is_lost lost) world.now }
{
    let mut least = Least::NoNode;
    for node in world.nodes() {
        least = with_node(least, node, lost);
    }
    least.epoch()
}
