//! Rows and field values of GTFS tables.
//!
//! A table's file is read into `Rows`: exactly the records that `csv` defines for its bytes, rows of unequal
//! width included; or its rows are read one at a time by a `RowReader`, which gives each of them in place, as a `Row`.
//! `whole`, `micro_degrees` and `colour` read the value of one field, or say that it has none; they take no memory.
#![tactic(auto)]

mod degree_text;
mod digits;
mod hex_colour;
mod pieces;
mod records;
mod row;
mod row_reader;
mod rows;
mod scaling;
mod spaces;
mod text;
mod whole_number;

pub use degree_text::micro_degrees;
pub use hex_colour::colour;
pub use row::Row;
pub use row_reader::RowReader;
pub use rows::{Rows, read_rows};
pub use spaces::trim_spaces;
pub use whole_number::whole;
