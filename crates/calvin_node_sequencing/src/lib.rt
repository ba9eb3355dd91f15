//! The sequencing layer of a node: its sequencer, its replica's roles in the synods of its group, and the batches that it holds.
//! What is done to it is said of every node that has it, whatever its scheduler and its rows are.
#![tactic(auto)]

mod agreement;
mod batches;
mod layer;
mod letters;
mod order;
mod submissions;

pub use layer::SequencingLayer;
