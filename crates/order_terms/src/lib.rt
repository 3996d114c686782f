//! The problem of a line graph: at each node two lines can cross, split or run apart, and each such term has the weight of
//! its kind at that kind of node, times the importance of both lines. `terms_of` gives the problem of all of them.
#![tactic(auto)]

mod found;
mod graph_terms;
mod node_terms;
mod round_places;
mod ways;

pub use graph_terms::terms_of;
pub use map_base::LimitFault as TermFault;
