//! What a script lists.
ghost use Rattle.std.specs.Prelude.{◌≡◌, ◌≤◌, length};
ghost use Rattle.calvin_types.specs.declared.limits.TheConstants.{MOST_REQUESTS};
ghost use Rattle.calvin_script.specs.Scripts.{all_listed, requests_of};

use crate::contents::Epoch;
use crate::kept::Kept;
use crate::operation::Operation;

/// The requests that an epoch lists for a group: none, where no batch is.
pub fn requests_of<Op: Operation>(epoch: &Epoch<Kept<Op>>, group: u8) -> &[Kept<Op>]
    ensures requests { result.now ≡ requests_of group (all_listed epoch.now) }
    ensures at_most { length result.now ≤ MOST_REQUESTS }
{
    for listed in &epoch.batches {
        if listed.group == group {
            return &listed.requests;
        }
    }
    &[]
}
