//! Whether two values that packets have are the same.
ghost use Rattle.std.specs.Prelude.{◌≡◌, MatchBool};

use calvin_app::{Answer, App, View};
use calvin_types::Sets;

/// Whether two views have the same rows.
pub(crate) fn is_same_view<A: App>(one: &View<A::Row>, other: &View<A::Row>) -> bool
    ensures { MatchBool result (one.now ≡ other.now) (one.now ≡ other.now → ⊥) }
{
    one.is_same(other)
}

/// Whether two answers are the same.
pub(crate) fn is_same_answer<A: App>(one: &Answer<A::Reply>, other: &Answer<A::Reply>) -> bool
    ensures { MatchBool result (one.now ≡ other.now) (one.now ≡ other.now → ⊥) }
{
    *one == *other
}

/// Whether two sets are the same.
pub(crate) fn is_same_sets(one: &Sets, other: &Sets) -> bool
    ensures { MatchBool result (one.now ≡ other.now) (one.now ≡ other.now → ⊥) }
{
    *one == *other
}
