//! An application round another one by which each request's name has its effect once: its reply is kept, and told again.
#![tactic(auto)]

mod endings;
mod inside;
mod kept;
mod keys;
mod lifting;
mod once;
mod runs;

pub use kept::{Keepable, Named, OnceRow};
pub use keys::kept_key;
pub use lifting::lift;
pub use once::Once;
pub use runs::run_on;
