//! The tables of an unpacked GTFS feed: the whole feed, or its stations alone, or the first bad row.
//!
//! stop_table, route_tables and sequence_tables each know one table or two; here they are read one after another, and the
//! patterns of the trips are made. A row that can't be read is refused and never repaired: the answer is then the first
//! bad row of its table, with the least reason of `Why` that it meets. Each answer is exactly the one that `specs/`
//! defines for the bytes of the files.
#![tactic(auto)]

mod pattern_set;
mod patterns;
mod table_file;
mod whole_feed;

pub use stop_table::read_stations;
pub use table_rows::{FeedFault, Table, Why};
pub use transit_feed::{Line, Pattern, Shape, Station, Tables};
pub use whole_feed::read_tables;
