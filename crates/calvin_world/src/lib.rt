//! The whole world: all nodes and every packet that was ever sent. What is promised of it holds after every list of events,
//! refused ones and those that ran out of memory among them, and for every application that keeps its laws.
#![tactic(auto)]

mod agreement;
mod event;
mod naming;
mod opening;
mod order;
mod serial;
mod settled;
mod steps;
mod worked;
mod world;

pub use agreement::{chosen_stays, chosen_was_submitted, given_is_held, nodes_agree, stands_later};
pub use event::{Event, Outcome};
pub use naming::PacketName;
pub use opening::{nodes_are_there, opening_is_restart};
pub use order::{all_are_woven, kept_order_same_rows};
pub use serial::{points_are_serial, replicas_are_serial, standing_alike};
pub use settled::{
    settled_calls, settled_chosen_stays, settled_is_serial, settled_leads, settled_nodes_are_there,
    settled_stands, settled_through, settled_was_submitted,
};
pub use steps::{nothing_to_deliver, pending_can_be_locked, what_grows_nothing_is_silent};
pub use worked::{
    cold_submit, empty_epoch, mark_then_snapshot, move_across_partitions,
    new_ballot_keeps_the_vote, old_ballot_refused, old_prepare_refused, one_node_run,
    refused_events, refused_over_a_point, refused_without_tables, reply_not_deliverable,
    restart_between_phases, snapshot_by_a_point, snapshot_then_restart, snapshot_without_mark,
};
pub use world::{StoreWorld, World, id_at, outcome_of};
