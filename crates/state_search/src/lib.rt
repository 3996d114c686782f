//! Searches for least costs over numbered states: what paths to goals with costs of their own are, what a table of known
//! costs and a queue of waiting states hold during a search with a lower bound, and what they conclude when it ends. The
//! table and the queue are here, with the one write that a search makes; the crates above search over steps of their own.
#![tactic(auto)]

mod known;
mod queue;
mod row;

pub use known::Known;
pub use queue::{Queue, lower, lower_in};
pub use row::{Place, Row};
