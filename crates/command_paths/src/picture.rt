//! Pictures of a map.

/// What is drawn of the map of a certificate, beside the map itself.
#[derive(Clone, Copy, Debug, PartialEq, Eq)]
pub enum Picture {
    /// The map with its names at free places.
    Labelled,
    /// Its line orders along the ways that lines take on the ground.
    Geographic,
    /// The map to print.
    Poster,
}
