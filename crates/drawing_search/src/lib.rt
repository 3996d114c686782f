//! Local search for lighter drawings. An attempt moves some nodes by one vector and lays runs of segments anew, each by the
//! least free walk between its ends, with the nodes between them spread along it. What makes the drawing lighter is made at
//! once, and passes over all attempts follow each other until one makes nothing. What is made stays legal, and weighs no
//! more than what was there before.
#![tactic(auto)]

mod cutting;
mod gains;
mod group;
mod laying;
mod least;
mod lifting;
mod pairs;
mod searching;
mod sketch;
mod trying;

pub use group::{Group, Vector};
pub use searching::{Searched, search};
