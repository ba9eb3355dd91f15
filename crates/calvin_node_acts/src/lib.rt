//! The events of a node, each as a function from the node's data to what it makes of them, and the steps of an event that
//! need no whole node.
#![tactic(auto)]

mod act;
mod deciding;
mod law;
mod opening;
mod serving;

pub use act::Act;
pub use deciding::{keep, make_room};
pub use law::refuses;
pub use opening::{first_epoch, has_kept, is_order_changed, scheduler_from};
pub use serving::post_served;
