//! The lines of a service: from a line of input to a request, from the requests that are there to an epoch and its line in a
//! journal, and from such a line back to the epoch.
#![tactic(auto)]

mod asked;
mod epoch;
mod gathering;
mod group;
mod levels;
mod limits;
mod request;
mod written;

pub use asked::Asked;
pub use epoch::read_epoch;
pub use gathering::Gathering;
pub use limits::{MOST_LEVELS, MOST_LINE_BYTES};
pub use request::read_request;
