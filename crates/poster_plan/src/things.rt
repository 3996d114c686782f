//! What stations, straight pieces and names take up, and whose it is.

use eight_sides::Shape;

/// The nodes that a thing belongs to.
#[derive(Clone, Copy, Debug, PartialEq, Eq)]
pub enum Kin {
    Nobody,
    Node(u32),
    Ends(u32, u32),
}

/// What a station, a straight piece of a walk or a name takes up, and whose it is.
#[derive(Clone, Copy, Debug)]
pub struct Thing {
    pub shape: Shape,
    pub kin: Kin,
}
