//! Numbers drawn one after another: a linear congruential generator of 64 bits, of which the upper 31 are given.

ghost use Rattle.std.specs.Prelude.{◌≡◌, ◌<◌, ◌^◌};
ghost use Rattle.trial_feed.specs.Draws.{next_state, drawn};

/// The state of the draws.
#[derive(Clone, Copy, Debug, PartialEq, Eq)]
pub struct Draws {
    pub state: u64,
}

impl Draws {
    /// Draws a number.
    pub fn next(&mut self) -> u64
        ensures state { self.new.state ≡ next_state self.old.state }
        ensures drawn { result ≡ drawn (next_state self.old.state) }
    {
        self.state = self
            .state
            .wrapping_mul(6_364_136_223_846_793_005)
            .wrapping_add(1_442_695_040_888_963_407);
        self.state >> 33
    }
}
