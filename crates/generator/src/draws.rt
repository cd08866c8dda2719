//! Numbers that are drawn, each from the one before.
ghost use Rattle.std.specs.Prelude.{◌≡◌, ◌<◌};
ghost use Rattle.generator.specs.Draws.{next_draw, below};

/// A sequence of pseudo-random numbers.
#[derive(Debug, Drop)]
pub(crate) struct Draws {
    /// The number that was drawn last, or at first the one that the sequence begins with.
    pub(crate) state: u64,
}

impl Draws {
    /// Draws the next number, and gives one below the limit from its high bits.
    pub(crate) fn below(&mut self, limit: u32) -> u32
        requires some { 0 < limit }
        ensures state { self.new.state ≡ next_draw self.old.state }
        ensures drawn { result ≡ below limit (next_draw self.old.state) }
        ensures less { result < limit }
    {
        self.state = next(self.state);
        ((self.state >> 33) % u64::from(limit)) as u32
    }
}

/// The number that follows another, modulo 2^64.
fn next(number: u64) -> u64
    ensures { result ≡ next_draw number }
{
    number
        .wrapping_mul(6_364_136_223_846_793_005)
        .wrapping_add(1_442_695_040_888_963_407)
}
