//! What the patterns ask of the shapes of a feed.

use map_base::Sequence;
use transit_feed::Shape;

/// The shapes of a feed.
#[derive(Drop)]
pub struct KnownShapes {
    /// The shapes that are kept, in the order of their first rows.
    pub shapes: Sequence<Shape>,
    /// The place of each trip's shape among them, if it is kept.
    pub of_trips: Sequence<Option<u32>>,
}
