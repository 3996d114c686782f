//! Stations with their names, as they are drawn.

use line_offsets::Corner;

/// A station as it is drawn, and how wide its name is, in tenths of the size of type.
#[derive(Clone, Copy, Debug)]
pub struct Sign {
    pub centre: Corner,
    pub radius: u32,
    pub tenths: u64,
}
