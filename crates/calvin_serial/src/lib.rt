//! The engine `serial`: a script's bytes in, the text of its serial run out.
#![tactic(auto)]

mod answering;
mod engine;
mod listed;
mod order;
mod scouted;
mod text;
mod undeclared;

pub use answering::push_answers;
pub use engine::serial;
pub use undeclared::UndeclaredSets;
