//! Untangling: rule after rule, each the least that applies, until none does.
//!
//! `untangle` gives exactly the rules and the last problem that are defined as the untangling of a problem: the least merge
//! while one applies, else the least division by the closure of a line. A rule changes what can be done at the segments
//! that it touches alone, so only these are looked at again; the terms of each segment are listed, so that a look and
//! a change take time near the terms of the segment. `apply_rules` does rules that are given, and names the first that
//! does not apply.
#![tactic(auto)]

mod cells;
mod grouping;
mod held_lines;
mod left_terms;
mod looking;
mod next_rules;
mod numbers;
mod segments;
mod untangling;
mod waiting;
mod work;

pub use untangling::{apply_rules, untangle};
