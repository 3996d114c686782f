//! What a graph file holds.

use graph_core::LineGraph;
use map_base::Sequence;
use svg_writer::Names;

/// A line graph, the names of its stations in the order of its nodes, and of each line of the file its name, its colour
/// and its importance, from 1 to 16.
#[derive(Debug, Drop)]
pub struct Imported {
    pub graph: LineGraph,
    pub names: Names,
    pub importance: Sequence<u32>,
}
