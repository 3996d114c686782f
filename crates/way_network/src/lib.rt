//! The network of ways that lines take over the points of a net, and its line graph: the used edges, the nodes, the
//! chains between them, the round of each node, and where lines go on from one chain to another.
#![tactic(auto)]

mod around;
mod chains;
mod counts;
mod crossings;
mod edge_table;
mod edge_use;
mod edges;
mod graph;
mod joins;
mod laws;
mod nodes;
mod numbers;
mod ranks;
mod rounds;
mod segments;
mod way;

pub use graph::{ChainedGraph, graph_of, places_of};
pub use laws::{
    edges_are_on_one_segment, lines_are_on_the_segments_of_their_ways,
    segments_have_the_lines_of_their_edges, used_edges_are_on_segments,
};
pub use map_base::LimitFault as GraphFault;
pub use way::{Passage, Way};
