//! The line graph: nodes, segments between them with their lines, the clockwise round of segments at each
//! node, and the connections of lines from segment to segment. A `LineGraph` is consistent, as its type
//! keeps, and its readers take no memory.
#![tactic(auto)]

mod graph;
mod parts;

pub use graph::LineGraph;
pub use parts::{GraphParts, Join, NodeKind};
