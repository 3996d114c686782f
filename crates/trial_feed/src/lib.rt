//! The trial feed: a folder of tables that a number makes, so that anybody can try the whole program on networks of
//! many shapes without a file. Stations stand on a square lattice, half a kilometre apart, and a few lines
//! run over it, each drawn by steps to the east or to the north. What the folder holds is exactly defined by the
//! number.
#![tactic(auto)]

mod draws;
mod folder;
mod lattice;
mod rows;
mod summary;
mod walks;

pub use folder::trial_files;
pub use summary::{Summary, trial_line};
