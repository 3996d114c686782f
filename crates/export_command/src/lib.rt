//! The command `export`: the line graph of a feed as a file of GeoJSON. Its promise says what is made of the file where it is
//! read again: the map of the feed; laws say the same of any line graph.
#![tactic(auto)]

mod exporting;
mod laws;
mod written;

pub use exporting::export_graph;
pub use laws::{
    a_graph_that_is_read_again_makes_the_same_map, line_graphs_of_feeds_can_be_read_again,
    what_is_exported_makes_the_map_of_the_feed,
};
