//! Places that follow each other.

/// So many places, from the first on.
#[derive(Clone, Copy)]
pub(crate) struct PlaceRun {
    pub(crate) first: u32,
    pub(crate) count: u32,
}
