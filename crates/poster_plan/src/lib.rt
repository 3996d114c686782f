//! The plan of a poster: its stations and the straight pieces of its walks on the grid, and by what rules a pitch, a place
//! for each name and one for the legend are chosen. One grid step is as many units as the pitch says; type has fixed sizes.
//! This crate holds the rules and their laws: no two printed names meet, none meets the mark of another station, and a name
//! lies over lines only where it found no place beside them.
#![tactic(auto)]

mod laws;
mod layout;
mod place;
mod plan;
mod sign;
mod text_width;
mod things;

pub use laws::{names_keep_apart, names_keep_to_their_stations, names_lie_over_lines_last};
pub use layout::{Legend, Printed, Step};
pub use place::{Anchor, Place, Spot, Turn};
pub use plan::{Mark, Piece, Plan};
pub use sign::Sign;
pub use text_width::TextWidth;
pub use things::{Kin, Thing};
