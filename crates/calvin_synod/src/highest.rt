//! The vote of the greatest ballot.
ghost use Rattle.std.specs.Prelude.{◌≡◌, ℕ, ◌++◌, ◌∷◌, [], nat_eq};
ghost use Rattle.std.specs.Option.{option_copied};
ghost use Rattle.std.specs.List.{list_any};
ghost use Rattle.calvin_synod.specs.Roles as roles;

use crate::attempt::Report;
use crate::vote::Vote;

/// The vote of the greater ballot.
pub fn higher<B: Drop>(first: Option<Vote<B>>, second: Option<Vote<B>>) -> Option<Vote<B>>
    ensures { result ≡ roles.higher first second }
{
    match (first, second) {
        (None, second) => second,
        (Some(first), None) => Some(first),
        (Some(first), Some(second)) => if first.ballot < second.ballot {
            Some(second)
        } else {
            Some(first)
        },
    }
}

/// The vote of the greater ballot, where it stands.
fn higher_of<'a, B>(first: Option<&'a Vote<B>>, second: Option<&'a Vote<B>>) -> Option<&'a Vote<B>>
    ensures { option_copied result ≡ roles.higher (option_copied first.entry) (option_copied second.entry) }
{
    match (first, second) {
        (None, second) => second,
        (Some(first), None) => Some(first),
        (Some(first), Some(second)) => if first.ballot < second.ballot {
            Some(second)
        } else {
            Some(first)
        },
    }
}

/// The vote of the greatest ballot among those reported, with one report more, which comes last, whoever it is from.
pub fn highest<'a, B>(reports: &'a [Report<B>], last: Option<&'a Vote<B>>) -> Option<&'a Vote<B>>
    ensures { (from : ℕ) → option_copied result ≡ roles.highest (reports.now ++ record { from = from; vote = option_copied last.entry } ∷ []) }
{
    match reports.split_first() {
        Some((report, rest)) => higher_of(report.vote.as_ref(), highest(rest, last)),
        None => last,
    }
}

/// Whether there is a report of this replica.
pub fn has_report<B>(reports: &[Report<B>], from: u8) -> bool
    ensures { result ≡ list_any (nat_eq from) (roles.reporters reports.now) }
{
    for report in reports {
        if from == report.from {
            return true;
        }
    }
    false
}
