//! Names beside their stations: each station's name stands at the first of eight places round its marker at which it
//! meets no earlier name, no marker and no line, and is left off where there is none. The places and the labelled map
//! are exactly those of their definitions.
#![tactic(auto)]

mod boxes;
mod cells;
mod filling;
mod grid;
mod laws;
mod place;
mod placing;
mod signs;
mod strokes;
mod things;
mod whole;

pub use laws::names_keep_clear;
pub use place::Place;
pub use placing::places;
pub use whole::labelled;
