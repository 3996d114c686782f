//! The places of a name round its station.

use line_offsets::Corner;

/// A place of a name.
#[derive(Clone, Copy, Debug, PartialEq, Eq)]
pub enum Place {
    /// Right of the station.
    E,
    /// Left of it.
    W,
    /// Right of it and below.
    SE,
    /// Right of it and above.
    NE,
    /// Left of it and above.
    NW,
    /// Left of it and below.
    SW,
    /// Above it.
    N,
    /// Below it.
    S,
    /// From it to the right, rising.
    UpEast,
    /// From the left up to it.
    DownWest,
    /// From it to the right, falling.
    DownEast,
    /// From the left down to it.
    UpWest,
}

/// Which way a text runs.
#[derive(Clone, Copy, Debug, PartialEq, Eq)]
pub enum Turn {
    Level,
    Rising,
    Falling,
}

/// Which part of a text stands at its point.
#[derive(Clone, Copy, Debug, PartialEq, Eq)]
pub enum Anchor {
    Start,
    Middle,
    End,
}

/// Where a text stands: for a level one the point is on its base line, for another on its middle line.
#[derive(Clone, Copy, Debug)]
pub struct Spot {
    pub at: Corner,
    pub turn: Turn,
    pub anchor: Anchor,
}
