//! How a map is found.

use crate::claim::Claim;
use crate::search::Search;
use crate::spread::Spread;
use std::marker::Model;

/// How a map is found, each setting in its range. Contracts see it as the record of its fields.
#[derive(Debug, Drop)]
pub struct Method {
    /// How the line orders of each part are searched for.
    pub search: Search,
    /// What is to be proved of the line orders that are found.
    pub claim: Claim,
    /// How far nodes are spread before they get their homes.
    pub spread: Spread,
    /// How fine the first grid is on which a drawing is tried: 1, 2 or 4 times as fine as the cells.
    pub coarsest: u32,
    /// How fine the last grid is on which a drawing is tried: 4, 8 or 16 times as fine as the cells.
    pub finest: u32,
    /// How many improving attempts may straighten the routes: at most 10,000.
    pub straight: u32,
    /// How many improving moves may follow them: at most 10,000.
    pub moves: u32,
}

impl Model for Method {
    ghost use Rattle.map_method.specs.Methods.{MethodChoices, IsMethod};

    ghost Value = { MethodChoices };

    ghost view = { λ m. record { search = m.search; claim = m.claim; spread = m.spread; coarsest = m.coarsest; finest = m.finest; straight = m.straight; moves = m.moves } };

    ghost invariant = { λ m. IsMethod (record { search = m.search; claim = m.claim; spread = m.spread; coarsest = m.coarsest; finest = m.finest; straight = m.straight; moves = m.moves }) };
}
