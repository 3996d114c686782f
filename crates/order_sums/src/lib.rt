//! What the terms of each two lines of a segment weigh together.
//!
//! Whether two segments can share an order, and whether lines can stand before others, is decided pair by pair. Here one
//! pass over the terms of a segment makes a table of the sums of each two of its lines, by place, so that no pair looks at
//! the terms of all. `pair_table` gives exactly the defined sums; `all_outweigh` and `most_apart` are read of it.
#![tactic(auto)]

mod outweighing;
mod pair_sums;
mod table;

pub use outweighing::{all_outweigh, most_apart};
pub use pair_sums::PairSums;
pub use table::{pair_table, place_of, row_at};
