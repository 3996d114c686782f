//! The least path over a net between two of its points along a corridor, with its tie rule.
#![tactic(auto)]

mod corridor;
mod costs;
mod known;
mod once;
mod queue;
mod search;
mod stretch;
mod walk;

pub use once::stretch_path_visits_once;
pub use stretch::stretch_path;
