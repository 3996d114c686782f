//! How the drawing of a map was made straighter.

use crate::made::Made;

/// What moves made of a drawing.
#[derive(Clone, Copy, Debug, PartialEq, Eq)]
pub struct Improvement {
    /// What the drawing weighed before them.
    pub before: u64,
    /// What it weighs after them.
    pub after: u64,
    /// How many were made.
    pub made: u32,
}

/// A map with its certificate, and what moves made of its drawing.
#[derive(Debug, Drop)]
pub struct ImprovedMap {
    /// The map and its certificate.
    pub map: Made,
    /// What moves made of the drawing.
    pub improvement: Improvement,
}
