//! How the trips of a GTFS feed run: the shapes that they follow and the stations that they serve, or the first bad
//! row.
//!
//! `shapes.txt` and `stop_times.txt` (GTFS Schedule reference) are the two tables whose rows are brought in order by a
//! sequence number; no number may stand twice in one shape or trip. Most of a feed's rows stand here, so
//! `stop_times.txt` is read row by row. Each answer is exactly the one that `specs/` defines for the file's bytes.
#![tactic(auto)]

mod first_refused;
mod known;
mod last_trip;
mod place_run;
mod places;
mod reads;
mod shape_columns;
mod shape_file;
mod shape_row;
mod shapes;
mod shapes_kept;
mod shapes_read;
mod stop_time_columns;
mod stop_time_file;
mod stop_time_row;
mod stop_times;
mod stop_times_read;

pub use known::KnownShapes;
pub use shape_file::shapes_in_file;
pub use stop_time_file::stop_times_in_file;
