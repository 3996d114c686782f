//! The eight directions of the grid.

ghost use Rattle.std.specs.Prelude.{◌≡◌, ◌<◌};
ghost use Rattle.octi_grid.specs.Ways.{east_of, north_of, number_of, reverse_of};

/// A direction of the grid, clockwise from north, which is number 0.
#[derive(Clone, Copy, Debug, PartialEq, Eq, PartialOrd, Ord, Hash)]
pub enum Dir {
    N,
    NE,
    E,
    SE,
    S,
    SW,
    W,
    NW,
}

impl Dir {
    /// Its number, from 0 to 7.
    pub fn index(self) -> u8
        ensures number { result ≡ number_of self }
        ensures below { result < 8 }
    {
        match self {
            Dir::N => 0,
            Dir::NE => 1,
            Dir::E => 2,
            Dir::SE => 3,
            Dir::S => 4,
            Dir::SW => 5,
            Dir::W => 6,
            Dir::NW => 7,
        }
    }

    /// The opposite direction.
    pub fn reverse(self) -> Dir
        ensures { result ≡ reverse_of self }
    {
        match self {
            Dir::N => Dir::S,
            Dir::NE => Dir::SW,
            Dir::E => Dir::W,
            Dir::SE => Dir::NW,
            Dir::S => Dir::N,
            Dir::SW => Dir::NE,
            Dir::W => Dir::E,
            Dir::NW => Dir::SE,
        }
    }

    /// How far east a step goes.
    pub fn east(self) -> i32
        ensures { result ≡ east_of self }
    {
        match self {
            Dir::N | Dir::S => 0,
            Dir::NE | Dir::E | Dir::SE => 1,
            Dir::SW | Dir::W | Dir::NW => -1,
        }
    }

    /// How far north a step goes.
    pub fn north(self) -> i32
        ensures { result ≡ north_of self }
    {
        match self {
            Dir::E | Dir::W => 0,
            Dir::N | Dir::NE | Dir::NW => 1,
            Dir::SE | Dir::S | Dir::SW => -1,
        }
    }
}
