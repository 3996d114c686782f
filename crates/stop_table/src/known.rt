//! What other tables ask of the stops of a feed.

use map_base::Sequence;
use table_rows::Ids;
use transit_feed::Station;

/// The stops of a feed, by their ids.
#[derive(Drop)]
pub struct KnownStops<'a> {
    /// The id of each row, in their order.
    pub ids: Ids<'a>,
    /// The station to which each row leads, if it leads to one.
    pub stations: Sequence<Option<u32>>,
}

/// The stops of a feed: its stations, and what is asked of them.
#[derive(Drop)]
pub struct FeedStops<'a> {
    /// The stations.
    pub stations: Sequence<Station>,
    /// The stops by their ids.
    pub known: KnownStops<'a>,
}
