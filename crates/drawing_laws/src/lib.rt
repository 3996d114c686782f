//! What drawings are, as laws of their definitions: a legal drawing in the plane, the homes of nodes, and what it means that
//! a segment has a route or none. Nothing here runs.
#![tactic(auto)]

mod plane;
mod routing;

pub use plane::legal_drawings_are_clear_in_the_plane;
pub use routing::{
    homes_are_on_the_grid, no_route_means_no_free_walk, routing_from_homes_is_legal,
};
