//! Stations and names of a poster as they are drawn at a pitch: what a name takes up at each of its places round its station,
//! and where its text stands.
#![tactic(auto)]

mod numbers;
mod places;
mod signs;

pub use numbers::{down, up};
pub use places::{beside_lines, over_lines, place_shape, tenth, text_spot};
pub use signs::{ground_at, mark_at, mark_numbered, piece_at, printed_shape, sign_of};
