//! The line graph of a feed: from its courses over the net to nodes, segments and their lines, and its text.
//!
//! The graph is the one that `specs/` defines for the feed. No line is lost: that of each course is on the segments
//! along its legs, and where it goes on from one to another, a node joins the two by it.
#![tactic(auto)]

mod building;
mod course_net;
mod legs;
mod lines_of_segments;
mod network;
mod passages;
mod print;
mod samples;
mod stretches;
mod ways;

pub use building::{build, graph_of_courses};
pub use lines_of_segments::{GraphWithLines, build_with_lines, segment_lines};
pub use map_base::LimitFault as BuildFault;
pub use print::print_graph;
