//! The poster of a drawn line graph as SVG 1.1: a map to print, in a picture that can be taken apart in a drawing
//! program. Its names have one readable size to which the grid gives way, stations are marked at the lines that call
//! there, and a legend tells the lines. The bytes are exactly those of the poster's definition, a list of elements.
#![tactic(auto)]

mod elements;
mod lines;
mod names;
mod pieces;
mod rows;
mod sheet;
mod stations;
mod whole;

pub use whole::poster;
