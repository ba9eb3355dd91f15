//! A history of events, which one pen writes. Whoever wants keeps marks of it: each is of a beginning of the whole, once the
//! history has ended. The events are there for contracts alone; at run time a history is the number of them.
#![tactic(auto)]

mod law;
mod pen;

pub use law::{Naming, Opened};
pub use pen::{Mark, Pen, Whole};
