//! What goes wrong on purpose.

/// A drill: what goes wrong on purpose in a running store, for those who want to see that their service lives with it. Couriers
/// lose packets and deliver others twice, and nodes lose all but their durable records. By each of its numbers this happens once
/// in so many times, and never by 0. Answers are the same, and come later.
///
/// What is lost is asked for again once nothing else is under way. Where every packet is lost no answer comes, and where every
/// other one is, none may: what is asked for can be lost each time. Where nodes restart before they have come back, there may be
/// no time at which all of them stand at an epoch.
#[derive(Clone, Copy, Debug, PartialEq, Eq)]
pub struct Drill {
    /// Of so many packets, in the order in which they were sent, the last one is never delivered.
    pub lose_every: usize,
    /// Of so many packets the last one is delivered twice, unless it is lost.
    pub double_every: usize,
    /// With the last of so many deliveries a node restarts: each node of a replica other than 0 in turn. Requests that were
    /// submitted at it and stand in no agreed batch are lost with it.
    pub restart_every: usize,
}

/// Nothing goes wrong.
pub const NO_DRILL: Drill = Drill {
    lose_every: 0,
    double_every: 0,
    restart_every: 0,
};

impl Drill {
    /// How often the packet of a number is delivered.
    pub(crate) fn times(&self, number: usize) -> u8 {
        if is_last_of(self.lose_every, number) {
            0
        } else if is_last_of(self.double_every, number) {
            2
        } else {
            1
        }
    }

    /// How many nodes restarted before, if one does with the delivery behind so many others.
    pub(crate) fn restarts_before(&self, deliveries: usize) -> Option<usize> {
        if is_last_of(self.restart_every, deliveries) {
            deliveries.checked_div(self.restart_every)
        } else {
            None
        }
    }
}

/// Whether a number, counted from 0, is the last one of its group of so many; of groups of none it isn't.
fn is_last_of(size: usize, number: usize) -> bool {
    size > 0 && number % size == size - 1
}
