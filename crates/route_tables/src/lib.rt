//! The tables of routes and trips of a GTFS feed: its lines and each trip's line and shape, or the first bad row.
//!
//! A line is a route of `routes.txt` whose type is asked for; a trip of `trips.txt` is selected where its route is a
//! line (GTFS Schedule reference). Each answer is exactly the one that `specs/` defines for the rows.
#![tactic(auto)]

mod known;
mod route_columns;
mod route_row;
mod routes;
mod routes_check;
mod trip_columns;
mod trip_row;
mod trips;
mod trips_check;

pub use known::{FeedRoutes, KnownRoutes, KnownTrips};
pub use routes::routes_in;
pub use trips::trips_in;
