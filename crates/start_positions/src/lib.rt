//! Where the nodes of a line graph get their homes on a grid: the cells of the plane and the grid that they make; nodes
//! that are spread so that a dense centre gets room; and for each node the nearest even grid point that is not used.
//! What is promised: the homes are the defined ones, and spreading keeps who lies west or south of whom.
#![tactic(auto)]

mod cells;
mod homes;
mod laws;
mod nearest;
mod placing;
mod spot;
mod spreading;

pub use cells::{cells_over, side_over};
pub use laws::spreading_keeps_sides;
pub use placing::{Offset, Placing, place, place_spread};
pub use spreading::{Place, places_of};
