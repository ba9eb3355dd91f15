//! The sets of dependent requests: they are looked for before a request is issued, and looked for again where they have
//! changed (Thomson et al. 2012, section 3.2.1).
#![tactic(auto)]

mod issuer;
mod scouting;

pub use calvin_app::Look;
pub use issuer::{Issuer, Next};
pub use scouting::{scout, settled_sets};
