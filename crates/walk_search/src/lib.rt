//! The least free walk on a board. A free walk goes from a seat of one end to a seat of the other, keeps clear of nodes
//! and earlier walks, and has allowed ports; the route is the free walk that costs the least with its seats, by a rule of
//! ties that leaves one answer. It is found by a search from the ends backwards, which touches only what can lie on a
//! walk no dearer than the route.
#![tactic(auto)]

mod ahead;
mod asked;
mod directions;
mod enclosed;
mod ends;
mod laws;
mod least;
mod offers;
mod reaching;
mod search;
mod seats;
mod spots;
mod walk;

pub use directions::allows;
pub use ends::End;
pub use grid_board::{Board, Bounds};
pub use laws::{
    no_walk_costs_less_than_reach, the_route_has_no_doubled_point_twice,
    the_route_is_the_best_free_walk,
};
pub use least::{least_settled_walk, least_walk, least_walk_within};
pub use reaching::reach;
