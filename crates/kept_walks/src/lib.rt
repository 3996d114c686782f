//! The drawing of a line graph, routed, straightened and moved, and the one that was made last.
//!
//! Straightening lets lines run straight through their stations. Stations between two junctions are no fixed points:
//! whole chains of segments are laid anew, and their stations spread evenly along them; corners of the network move
//! with the chains that end at them, and nodes with their segments, as long as that makes the drawing lighter. Moves are
//! of single nodes with their segments, by another weight, and begin anew after each that is made. What is made is legal,
//! weighs no more than what was there before, and is the end of the search, or all that was asked for.
//!
//! The drawing that was made last is taken again where nothing changed on which it depends: the line graph and the plan,
//! which says how it is drawn. What is taken again is what would be drawn anew, so nothing that is kept shows in an answer.
#![tactic(auto)]

mod copies;
mod drawn;
mod groups;
mod moving;
mod runs;
mod same_graphs;
mod straightening;

pub use copies::copy_of_graph;
pub use drawing_search::Searched;
pub use drawn::KeptWalks;
pub use moving::improve;
pub use straightening::straighten;
