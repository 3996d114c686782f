//! What the rules of untangling come to, as laws of their definitions: the closure of a line is the least group that can
//! stand before the other lines of its segment, and where no rule is left no merge and no division applies. Nothing here
//! runs.
#![tactic(auto)]

mod laws;

pub use laws::{closures_are_least, nothing_applies_where_no_rule_is_left};
