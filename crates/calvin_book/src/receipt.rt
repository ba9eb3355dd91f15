//! What a receipt says of a book, and what a look for a reply finds.
ghost use Rattle.std.specs.Prelude.{◌≡◌};
ghost use Rattle.calvin_book.specs.Receipts.{told_after};

use calvin_app::Answer;
use calvin_types::{NodeId, Place, Txn};

/// The event of this number submits this request at this node, whose next epoch was then above the epoch that was told.
#[derive(Clone, Copy)]
pub struct Submission<Args: Copy> {
    pub number: usize,
    pub node: NodeId,
    pub txn: Txn<Args>,
    /// The epoch that the caller had been told of, if any.
    pub told: Option<u64>,
}

/// The request was answered, and its caller is told of this epoch.
#[derive(Clone, Copy)]
pub struct Answered<Args: Copy, Reply: Copy> {
    pub submission: Submission<Args>,
    pub answer: Answer<Reply>,
    pub told: u64,
}

/// What a look for the first reply to a request finds.
#[derive(Clone, Copy)]
pub enum Look<Reply: Copy> {
    /// The place of the request, and its answer.
    Found(Place, Answer<Reply>),
    /// There is none among the packets so far, of which there are this many: the next look may begin there.
    NotYet(usize),
}

impl<Args: Copy> Submission<Args> {
    /// What its caller is told where this is the first reply: of the epoch of its place, or of the one that was told before where
    /// that is later.
    pub fn answered<Reply: Copy>(self, place: Place, answer: Answer<Reply>) -> Answered<Args, Reply>
        ensures { result ≡ record { submission = self; answer = answer; told = told_after self.told place.epoch } }
    {
        let told = match self.told {
            None => place.epoch,
            Some(told) => told.max(place.epoch),
        };
        Answered {
            submission: self,
            answer,
            told,
        }
    }
}
