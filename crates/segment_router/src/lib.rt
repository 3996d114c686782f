//! The drawing of a line graph on the octilinear grid: from the homes of its nodes, allowed ports and routes of segments one
//! after another, on finer and finer grids. A drawing that it makes is legal.
#![tactic(auto)]

mod attempts;
mod drawing;
mod fault;
mod laws;
mod order;
mod ports;
mod routing;

pub use drawing::route;
pub use fault::RouteFault;
pub use laws::{homes_stay_free, routes_are_legal, the_board_shows_nodes_and_walks};
pub use ports::allowed_ports;
pub use routing::{into_walks, no_walks, port_of, push_port};
pub use start_positions::{Offset, Placing, place, spreading_keeps_sides};
