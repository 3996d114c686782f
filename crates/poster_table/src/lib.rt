//! A table of what takes up room on a poster, by the cells of a coarse grid that it reaches into: it finds what a thing clashes
//! with in a time that does not grow with all that it holds, and says what one look at each thing says.
#![tactic(auto)]

mod cells;
mod table;
mod things;

pub use cells::Cells;
pub use table::Table;
