//! Why no map is made of a line graph, and what is refused of a map and its certificate.
#![tactic(auto)]

mod fault;

pub use fault::{CheckFault, CheckItem, MakeFault};
