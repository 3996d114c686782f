//! The command `trial`: the map of a trial feed is made, and its numbers are told. No file is read or written, so
//! anybody can try the whole program by one word and a number.
#![tactic(auto)]

mod splits;
mod summary;
mod trial;

pub use trial::print_trial;
