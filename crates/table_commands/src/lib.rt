//! The commands that print what is in a feed: its stations, and its line graph.
#![tactic(auto)]

mod graph_command;
mod stations;
mod stations_command;

pub use graph_command::print_line_graph;
pub use stations_command::print_stations;
