//! Edits.

ghost use Rattle.std.specs.Prelude.{◌≡◌, ◌↔◌, IsTrue};

use crate::ranges::{are_of_place, is_cell, is_light, is_within};
use map_base::{Text, Weights};

/// A step of an editor of maps.
#[derive(Debug, Drop)]
pub enum Edit {
    /// The line with this route id is left out of the map.
    Hide { line: Text },
    /// The line with this route id is drawn again.
    Show { line: Text },
    /// The weights at stations, or else those at junctions.
    Weight { station: bool, weights: Weights },
    /// How near points of courses are thinned to, in decimetres.
    Near { near: u32 },
    /// The side of a grid cell in decimetres, or 0 for one that fits the network.
    Cell { cell: u32 },
    /// How many branch nodes the search for the orders of one part may have.
    Budget { budget: u32 },
    /// The name of the station with this id.
    Rename { stop: Text, name: Text },
    /// The place of the station with this id, in microdegrees.
    Move { stop: Text, lat: i64, lon: i64 },
    /// Red, green and blue of the line with this route id.
    Colour { line: Text, colour: [u8; 3] },
    /// How much a crossing of the line with this route id counts.
    Importance { line: Text, importance: u32 },
    /// The last edit that stands is taken off.
    Undo,
}

impl Edit {
    ghost use Rattle.map_edits.specs.Kinds.{is_undo};
    ghost use Rattle.map_edits.specs.Effects.{IsInRange};

    /// Whether the last edit that stands is taken off.
    pub fn is_undo(&self) -> bool
        ensures { result ≡ is_undo self.now }
    {
        match self {
            Edit::Undo => true,
            Edit::Hide { .. } => false,
            Edit::Show { .. } => false,
            Edit::Weight { .. } => false,
            Edit::Near { .. } => false,
            Edit::Cell { .. } => false,
            Edit::Budget { .. } => false,
            Edit::Rename { .. } => false,
            Edit::Move { .. } => false,
            Edit::Colour { .. } => false,
            Edit::Importance { .. } => false,
        }
    }
    /// Whether each value is in the range of what it sets, as in each edit that `read_edit` gives.
    pub fn is_in_range(&self) -> bool
        ensures { IsTrue result ↔ IsInRange self.now }
    {
        match self {
            Edit::Weight { weights, .. } => is_light(weights),
            Edit::Near { near } => is_within(20, 20_000, *near),
            Edit::Cell { cell } => is_cell(*cell),
            Edit::Budget { budget } => is_within(1, 100_000, *budget),
            Edit::Move { lat, lon, .. } => are_of_place(*lat, *lon),
            Edit::Importance { importance, .. } => is_within(1, 16, *importance),
            Edit::Hide { .. } => true,
            Edit::Show { .. } => true,
            Edit::Rename { .. } => true,
            Edit::Colour { .. } => true,
            Edit::Undo => true,
        }
    }
}
