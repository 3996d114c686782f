//! A transit feed as values: its stations, lines, patterns and shapes (GTFS Schedule reference), whatever it was
//! read from.
#![tactic(auto)]

mod line;
mod pattern;
mod shape;
mod station;
mod tables;

pub use line::Line;
pub use pattern::Pattern;
pub use shape::Shape;
pub use station::Station;
pub use tables::Tables;
