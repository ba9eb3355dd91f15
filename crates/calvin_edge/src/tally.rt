//! A number without a bound, which only clauses read.
ghost use Rattle.std.specs.Prelude.{◌≡◌, ◌+◌, nat_lt};

use std::fmt;
use std::marker::Model;
use std::snapshot::Snapshot;

/// How many times something happened, as clauses see it: a number with no bound. A proof remembers the tally before;
/// the machine keeps, in one byte, only whether it has happened at all.
#[cycle(tally)]
#[derive(Drop)]
pub struct Tally {
    before: Option<Snapshot<Tally>>,
}

impl Model for Tally {
    ghost use Rattle.std.specs.Prelude.{ℕ};

    ghost Value = { ℕ };

    ghost use Rattle.calvin_edge.specs.Tallies.{count};

    ghost view = { λ t. count t.before };

    ghost size = { λ n. n };
}

impl Tally {
    /// A tally of nothing.
    pub fn new() -> Tally
        ensures { result ≡ 0 }
    {
        Tally { before: None }
    }

    /// Counts one more.
    pub fn raise(&mut self)
        ensures { self.new ≡ self.old + 1 }
    {
        *self = Tally {
            before: Some(Snapshot::of(self)),
        };
    }

    /// Whether it has happened at least once. How often, the machine doesn't know.
    pub fn is_raised(&self) -> bool
        ensures { result ≡ nat_lt 0 self.now }
    {
        self.before.is_some()
    }
}

impl fmt::Debug for Tally {
    fn fmt<W: fmt::Write>(&self, f: &mut fmt::Formatter<W>) -> fmt::Result {
        f.write_str("Tally")
    }
}
