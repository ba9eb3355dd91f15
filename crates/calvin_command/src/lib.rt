//! The command line of the program: which words are a line of it, which engine a line runs, and how it ends.
#![tactic(auto)]

mod dispatch;
mod help;
mod lines;
mod wishes;

pub use dispatch::command;
