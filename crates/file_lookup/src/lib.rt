//! What a message to a user speaks of, found again on the disk after a run: what lies at a path, a row of a table with
//! its header, the ids of a table, the types of routes, a line of a script, the text of settings that is refused, the
//! stations and the network of a feed, what a map shows, the names of a poster, the draws of a session.
//! Nothing is promised but that a call returns, and nothing here is put into words. Files that are no plain files, as
//! pipes, are not looked at.
#![tactic(auto)]

mod chosen_settings;
mod columns;
mod drawn_types;
mod edit_lines;
mod far_stops;
mod feed_stations;
mod feed_tables;
mod map_text;
mod network;
mod paths;
mod printed_names;
mod refused_settings;
mod rows;
mod session_draws;
mod stop_names;
mod table_ids;
mod undrawn_routes;

pub use chosen_settings::settings_of;
pub use columns::{lacking_column, other_names, sought_in};
pub use drawn_types::{RouteTypes, each_once, route_types};
pub use edit_lines::{edits_path, line_at};
pub use far_stops::has_far_stations;
pub use feed_stations::{FeedStations, stations_of};
pub use network::{FarOff, Network, network_of};
pub use paths::{
    Folder, begins_with, bytes_at, folder_at, found_file, inner_with, is_archive, is_folder,
    is_plain, read_fault,
};
pub use printed_names::{PosterNames, poster_names};
pub use refused_settings::{Refused, Source, refused_text};
pub use rows::{FoundRow, Sought, earlier_row, row_around, row_at};
pub use session_draws::{Draws, RefusedDraw, draws_at};
pub use stop_names::nameless_stations;
pub use table_ids::ids_at;
pub use undrawn_routes::{NotShown, not_shown};
