//! What a session draws, as laws of its definition. Nothing here runs.
#![tactic(auto)]

mod laws;

pub use laws::{each_draw_is_a_make_with_its_edits, each_draw_is_what_make_comes_to};
