//! What other tables ask of the routes and trips of a feed.

use map_base::Sequence;
use table_rows::{Ids, Slices};
use transit_feed::Line;

/// The routes of a feed, by their ids.
#[derive(Drop)]
pub struct KnownRoutes<'a> {
    /// The id of each route, in the order of the rows.
    pub ids: Ids<'a>,
    /// The id of each line: of each selected route, in the order of the rows.
    pub line_ids: Ids<'a>,
}

/// The trips of a feed, by their ids.
#[derive(Drop)]
pub struct KnownTrips<'a> {
    /// The id of each trip, in the order of the rows.
    pub ids: Ids<'a>,
    /// The line of each trip, if it is selected.
    pub lines: Sequence<Option<u32>>,
    /// The `shape_id` of each trip: empty where it names none, or where it is not selected.
    pub shapes: Slices<'a>,
}

/// The routes of a feed: its lines, and what is asked of them.
#[derive(Drop)]
pub struct FeedRoutes<'a> {
    /// The lines.
    pub lines: Sequence<Line>,
    /// The routes by their ids.
    pub known: KnownRoutes<'a>,
}
