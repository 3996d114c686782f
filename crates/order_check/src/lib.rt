//! The checker of proofs about what orders of lines cost. A proof is a list of rules that make the problem smaller, each
//! tested in its turn, and a target with a tree for each part of the problem that they make: of cases, or of settled pairs.
//! Whoever made the proof isn't trusted: where the checker says yes, no orders of the problem cost less than the targets
//! sum to. Where this is what some orders cost, these are best.
#![tactic(auto)]

mod asked;
mod charges;
mod check;
mod close;
mod node;
mod part;
mod part_table;
mod picking;
mod placing;
mod refusal;
mod rules;
mod slot;
mod slot_costs;
mod spot;
mod tally;
mod term_prices;
mod total;
mod walk;

pub use check::{check_bound, check_proof};
pub use refusal::{ProofItem, ProofStop};
