//! Lines.

use map_base::Text;

/// A line: a route of a selected type.
#[derive(Debug, Drop)]
pub struct Line {
    /// The row's `route_id`.
    pub id: Text,
    /// The route's short name, else its long name, else its id.
    pub name: Text,
    /// Red, green and blue.
    pub colour: [u8; 3],
    /// Whether the line is left out of the map.
    pub hidden: bool,
}
