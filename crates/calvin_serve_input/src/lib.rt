//! The lines of an input that comes piece by piece, each as far as it is wanted.
#![tactic(auto)]

mod input;

pub use input::Input;
