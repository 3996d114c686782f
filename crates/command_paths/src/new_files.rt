//! The files of a map that is made.

use crate::map_files::MapFiles;

/// Where a new map and its certificate are to lie, and its page, if one is asked for.
#[derive(Clone, Copy, Debug)]
pub struct NewFiles<'a> {
    /// The map and its certificate.
    pub map: MapFiles<'a>,
    /// The page.
    pub page: Option<&'a str>,
}
