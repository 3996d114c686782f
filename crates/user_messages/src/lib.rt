//! The lines that a user gets on standard error beside the exact line of a status: what is wrong in words, with what
//! stands in the files, and what to do; and where all went well, what is not on the map. What stands there file_lookup
//! finds again after a run, and nothing is promised but that a call returns.
#![tactic(auto)]

mod bad_edit;
mod bad_graph;
mod bad_row;
mod bad_settings;
mod blank_map;
mod done;
mod feed_path;
mod fewer_lines;
mod files;
mod limits;
mod messages;
mod near_word;
mod no_picture;
mod no_route;
mod poster_lines;
mod refused_draws;
mod refuted;
mod route_lines;
mod set_keys;
mod spent;
mod station_words;

pub use messages::message;
