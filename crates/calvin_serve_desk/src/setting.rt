//! What a journal is of.
ghost use Rattle.calvin_types.specs.Limits.{IsInRange};

use calvin_serial::UndeclaredSets;

/// What a journal is of, beside its application: how many partitions the store has, 1 to 16, and which sets a request has that
/// declares none.
#[derive(Clone, Copy, Debug, PartialEq, Eq)]
pub struct Setting {
    pub partitions: u8,
    pub sets: UndeclaredSets,
    ghost in_range: { IsInRange partitions 1 },
}
