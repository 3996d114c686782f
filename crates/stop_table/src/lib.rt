//! The table of stops of a GTFS feed: its stations and where each stop leads, or its first bad row.
//!
//! `stops.txt` (GTFS Schedule reference) has stations, stops, entrances, generic nodes and boarding areas. Each answer
//! is exactly the one that `specs/` defines for the rows.
#![tactic(auto)]

mod feed_stops;
mod known;
mod leads;
mod parents;
mod stop_columns;
mod stop_row;
mod stops;
mod stops_check;

pub use feed_stops::stops_in;
pub use known::{FeedStops, KnownStops};
pub use stops::read_stations;
pub use table_rows::{FeedFault, Table, Why};
pub use transit_feed::Station;
