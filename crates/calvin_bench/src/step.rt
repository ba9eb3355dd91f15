//! What is done at one replica of a given order.
use calvin_app::{Answer, View};
use calvin_types::Place;

/// A step of one replica, which has one scheduler for each partition. Partitions count from 0.
#[derive(Clone, Copy, Debug, PartialEq, Eq)]
pub enum Step {
    /// The next request of the order is admitted at a partition.
    Admit(u8),
    /// The request at a place begins at a partition.
    Begin(u8, Place),
    /// A partition takes the rows that another one read for the request at a place.
    Reads(u8, u8, Place),
    /// The request at a place is run at a partition, and writes there.
    Finish(u8, Place),
}

/// What a step that takes effect gives.
#[derive(Clone, Copy)]
pub enum Outcome<Row: Copy, Reply: Copy> {
    /// A request was admitted, or passed over.
    Admitted,
    /// These rows were read for the request that began.
    Served(View<Row>),
    /// The rows of another partition were taken.
    Received,
    /// The request was answered.
    Answered(Answer<Reply>),
}
