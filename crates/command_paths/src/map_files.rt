//! The two files of a map.

/// Where a map and its certificate lie.
#[derive(Clone, Copy, Debug)]
pub struct MapFiles<'a> {
    /// The map.
    pub picture: &'a str,
    /// Its certificate.
    pub certificate: &'a str,
}
