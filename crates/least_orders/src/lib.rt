//! The least order of the lines of one segment, under what each two of them cost by their order and what neighbours cost,
//! among those that keep settled pairs.
//!
//! Definitions, and their laws: the permutations of the lines are their orders, the least is at most each, a line goes on
//! with the best choice of the next, and lines may go by their places. The program over sets of lines is in
//! `subset_program`.
#![tactic(auto)]

mod choice;

pub use choice::Choice;
