//! The least order of the lines of one segment, found by a dynamic program over the sets of lines that stand first.
//!
//! A `SubsetProgram` has tables that are made once, for so many lines at most, and used again. From the rows of a segment
//! it tells the least cost of the orders that keep the settled pairs, and the least such order; a call takes no memory.
#![tactic(auto)]

mod entries;
mod place_sets;
mod program;
mod rows;
mod steps;
mod table;

pub use program::SubsetProgram;
pub use rows::PairRows;
