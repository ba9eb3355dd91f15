//! Numbers that are drawn.
ghost use Rattle.std.specs.Prelude.{◌<◌};

/// Numbers that are drawn, always the same ones from one start (Knuth's MMIX generator).
#[derive(Drop)]
pub(crate) struct Draws {
    state: u64,
}

impl Draws {
    /// Numbers that follow from a first one.
    pub fn new(start: u64) -> Draws {
        Draws { state: start }
    }

    /// A number below `n`.
    pub fn below(&mut self, n: u64) -> u64
        requires { 0 < n }
        ensures { result < n }
    {
        self.state = self
            .state
            .wrapping_mul(6364136223846793005)
            .wrapping_add(1442695040888963407);
        (self.state >> 33) % n
    }
}
