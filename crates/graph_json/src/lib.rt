//! The line graph as a file of GeoJSON, whose coordinates are whole decimetres of the plane: nodes are points and
//! segments are line strings, and beside the features stand the lines. `write_graph` writes a graph, and `read_graph`
//! answers the graph of a file, or the first thing that is wrong with it. What was written is read as the same graph, up
//! to the numbers of its stations.
#![tactic(auto)]

mod columns;
mod entries;
mod fault;
mod features;
mod forms;
mod imported;
mod limits;
mod lines;
mod made;
mod reading;
mod references;
mod values;
mod writing;
mod written;

pub use fault::JsonFault;
pub use imported::Imported;
pub use reading::read_graph;
pub use writing::write_graph;
