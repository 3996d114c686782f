//! Tests of the least free walks on small boards and on a large one, of moves, and of straightening. Nothing stands on this
//! crate.
#![tactic(auto)]

#[cfg(test)]
mod boards;
#[cfg(test)]
mod drawings;
#[cfg(test)]
mod graphs;
#[cfg(test)]
mod move_tests;
#[cfg(test)]
mod straight_tests;
#[cfg(test)]
mod walk_tests;
