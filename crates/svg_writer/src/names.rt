//! What stations and lines are called, and how lines look.

use map_base::{Sequence, Text};

/// The names of stations, and the names and colours of lines, each in the order of their numbers. A colour is red,
/// green and blue.
#[derive(Debug, Drop)]
pub struct Names {
    pub stations: Sequence<Text>,
    pub lines: Sequence<(Text, [u8; 3])>,
}
