//! Where a place stands among places in order.
ghost use Rattle.std.specs.Prelude.{MatchOption};
ghost use Rattle.calvin_lock.specs.Unreleased.{Among, Rises, SplitsAt, IsNumberOf};

use calvin_types::Place;

/// How many places of a rising list aren't past another. That one is looked for at `near` first.
pub(crate) fn count_up_to(places: &[Place], place: Place, near: usize) -> usize
    requires { Rises places.now }
    ensures { SplitsAt places.now place result }
{
    if near < places.len() && places[near] == place {
        return near + 1;
    }
    match places.binary_search(&place) {
        Ok(i) => i + 1,
        Err(i) => i,
    }
}

/// Where a place stands in a rising list. It is looked for at `near` first.
pub(crate) fn number_of(places: &[Place], place: Place, near: usize) -> Option<usize>
    requires { Rises places.now }
    ensures { MatchOption result (¬ Among places.now place) (IsNumberOf places.now place) }
{
    if near < places.len() && places[near] == place {
        return Some(near);
    }
    match places.binary_search(&place) {
        Ok(i) => Some(i),
        Err(_) => None,
    }
}
