//! How far nodes are spread.

/// How far nodes are moved towards even ranks on each axis, before they get their homes on a grid.
#[derive(Clone, Copy, Debug, PartialEq, Eq)]
pub enum Spread {
    /// So many percent of the way: 0 to 100.
    Percent(u32),
    /// No part of the way, then a tenth of it, two tenths and so on to the whole way, each on a grid before the next one.
    Auto,
}
