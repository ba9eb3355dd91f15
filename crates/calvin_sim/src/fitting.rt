//! Which scripts can be simulated.
ghost use Rattle.std.specs.Prelude.{◌≡◌, ℕ, List, map, nat_le, Ok};
ghost use Rattle.calvin_types.specs.declared.limits.TheConstants.{MOST_UNDECIDED};
ghost use Rattle.calvin_script.specs.Grammar.{Grammar};
ghost use Rattle.calvin_script.specs.Reading.{script_from};
ghost use Rattle.calvin_script.specs.Scripts.{Contents, all_listed, contents};
ghost use Rattle.calvin_sim.specs.Simulations.{listed_for, fits, AllTaken};

use calvin_script::{Epoch, Kept, Operation, Script, requests_of};
use calvin_types::{MOST_EPOCHS, MOST_UNDECIDED};

/// Whether a sequencer has room for all requests of a group that the epochs list.
fn group_fits<Op: Operation>(epochs: &[Epoch<Kept<Op>>], group: u8) -> bool
    ensures { result ≡ nat_le (listed_for group (map all_listed epochs.now)) MOST_UNDECIDED }
{
    let mut left = MOST_UNDECIDED;
    for epoch in epochs {
        let number = requests_of(epoch, group).len();
        if number > left {
            return false;
        }
        left -= number;
    }
    true
}

/// Whether each sequencer has room for all requests that the script lists for its group, and each epoch has a number.
pub fn fits<Op: Operation>(script: &Script<Kept<Op>>) -> bool
    ensures { result ≡ fits (contents script.now) }
{
    for group in 0..script.partitions {
        if !group_fits(&script.epochs, group) {
            return false;
        }
    }
    script.epochs.len() as u64 <= MOST_EPOCHS
}

/// A sequencer takes each request of a script that was read.
pub fn read_is_taken<Args>()
    ensures { (grammar : Grammar Args) (bytes : List ℕ) (script : Contents Args) → script_from grammar bytes ≡ Ok script → AllTaken script }
{}
