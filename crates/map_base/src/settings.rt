//! What a user may set.

ghost use Rattle.std.specs.Prelude.{IfOk, ◌≡◌};

use crate::memory::NoMemory;
use crate::sequence::Sequence;
use crate::text::Text;
use crate::weights::Weights;
use std::alloc::Global;
use std::marker::Model;

/// The settings of a map, each in its range. Contracts see them as the record of their fields.
#[derive(Debug, Drop)]
pub struct Settings {
    /// How near points of courses are thinned to, in decimetres: 20 to 20,000.
    pub near: u32,
    /// The side of a grid cell in decimetres: 10 to 1,000,000, or 0 for one that fits the network.
    pub cell: u32,
    /// How many branch nodes the search for the orders of one part may have: 1 to 100,000.
    pub budget: u32,
    /// The route types that are drawn (GTFS Schedule reference, `routes.txt`): at most 100.
    pub types: Sequence<u32>,
    /// The weights at a junction, and those at a station.
    pub weights: [Weights; 2],
    /// How much a crossing of a line counts: pairs of a route id and a number from 1 to 16, by rising bytes of the
    /// id, each id once. A line without a pair counts 1, and an id that no route has is without effect.
    pub importance: Sequence<(Text, u32)>,
}

impl Model for Settings {
    ghost use Rattle.map_base.specs.Settings.{Choices, AreInRange};

    ghost Value = { Choices };

    ghost view = { λ s. record {
      near = s.near;
      cell = s.cell;
      budget = s.budget;
      types = s.types;
      weights = s.weights;
      importance = s.importance;
    } };

    ghost invariant = { λ s. AreInRange (record {
      near = s.near;
      cell = s.cell;
      budget = s.budget;
      types = s.types;
      weights = s.weights;
      importance = s.importance;
    }) };
}

impl Settings {
    ghost use Rattle.map_base.specs.Settings.{standard_choices};

    /// The settings where a user sets none.
    pub fn standard(alloc: Global) -> Result<Settings, NoMemory>
        ensures { IfOk result (λ settings. settings ≡ standard_choices) }
    {
        let types = vec![in alloc; 0, 1, 2, 5, 6, 7, 12]?;
        Ok(Settings {
            near: 500,
            cell: 0,
            budget: 20_000,
            types: Sequence::of(types),
            weights: [
                Weights {
                    link: 4,
                    split: 1,
                    sep: 3,
                },
                Weights {
                    link: 12,
                    split: 3,
                    sep: 9,
                },
            ],
            importance: Sequence::of(Vec::new(alloc)),
        })
    }
}
