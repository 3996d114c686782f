//! The commands that make a map with its certificate: of a feed, of a feed with more moves that make its drawing
//! straighter, and of a graph file; and the one that checks a map with its certificate.
#![tactic(auto)]

mod check_command;
mod import_command;
mod improve_command;
mod improve_outputs;
mod make_command;
mod outputs;

pub use check_command::check_map;
pub use import_command::import_graph;
pub use improve_command::improve_map;
pub use make_command::make_map;
