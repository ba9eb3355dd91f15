//! Majorities.
ghost use Rattle.std.specs.Prelude.{◌≡◌};
ghost use Rattle.calvin_synod.specs.Quorums as quorums;

/// How many of so many replicas are a majority.
pub fn majority(replicas: u8) -> usize
    ensures { result ≡ quorums.majority replicas }
{
    replicas as usize / 2 + 1
}
