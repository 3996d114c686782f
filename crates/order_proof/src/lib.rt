//! Proofs that no orders of lines cost less than a number: their form, and their text both ways.
#![tactic(auto)]

mod dual_forms;
mod dual_line;
mod dual_reading;
mod forms;
mod front_line;
mod laws;
mod line_word;
mod node_line;
mod part_tree;
mod price_forms;
mod proof;
mod reading;
mod tree;
mod writing;

pub use decimal_text::BadText;
pub use laws::{
    every_proof_has_one_spelling, no_proof_where_reading_stops, what_is_written_is_read,
};
pub use part_tree::PartTree;
pub use proof::{Part, Proof};
pub use reading::read_proof;
pub use tree::Tree;
pub use writing::write_proof;
