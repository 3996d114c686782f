//! The lattice that stations stand on.

ghost use Rattle.std.specs.Prelude.{◌≡◌, ◌≤◌, ◌<◌};
ghost use Rattle.trial_feed.specs.Lattice.{side, line_count, microdegrees, is_inside, step_after};

/// A place of the lattice, which is a station: how far east and how far north it stands, in steps.
#[derive(Clone, Copy, Debug, PartialEq, Eq)]
pub struct Place {
    pub east: u32,
    pub north: u32,
}

impl Place {
    /// Whether a line goes on from here, on a lattice of this side: the place is on neither of its far sides.
    pub fn is_inside(self, side: u32) -> bool
        ensures { result ≡ is_inside side self }
    {
        self.east < side && self.north < side
    }

    /// The next place of a line after this draw: east of here where the draw is even, else north.
    pub fn after(self, draw: u64) -> Place
        requires east { self.east < 100 }
        requires north { self.north < 100 }
        ensures { result ≡ step_after draw self }
    {
        if draw % 2 == 0 {
            Place {
                east: self.east + 1,
                ..self
            }
        } else {
            Place {
                north: self.north + 1,
                ..self
            }
        }
    }
}

/// How many steps the lattice of a trial is wide and high.
pub fn side(trial: u32) -> u32
    ensures value { result ≡ side trial }
    ensures least { 4 ≤ result }
    ensures most { result ≤ 20 }
{
    4 + trial % 17
}

/// How many lines a trial has.
pub fn line_count(trial: u32) -> u32
    ensures value { result ≡ line_count trial }
    ensures most { result ≤ 10 }
{
    2 + trial / 17 % 9
}

/// How many microdegrees so many steps are, rounded up.
pub fn microdegrees(steps: u32) -> u64
    ensures { result ≡ microdegrees steps }
{
    (50_000_000 * u64::from(steps)).div_ceil(11_132)
}
