//! The settings that hold where a user sets none.

ghost use Rattle.std.specs.Prelude.{◌≡◌, IfOk};
ghost use Rattle.map_method.specs.Defaults.{budget_of, method_of, settings_of};

use crate::claim::Claim;
use crate::method::Method;
use crate::search::Search;
use crate::spread::Spread;
use map_base::{NoMemory, Settings};
use std::alloc::Global;

/// Which settings hold where a user sets none.
#[derive(Clone, Copy, Debug, PartialEq, Eq)]
pub enum Defaults {
    /// Those of `make`: few tries, on coarse grids.
    Make,
    /// Those of `map`: many tries, on finer grids too, with nodes spread; lines laid straight; and orders searched for
    /// by dual prices, within a greater budget.
    Map,
}

impl Defaults {
    /// How a map is found.
    pub(crate) fn method(self) -> Method
        ensures { result ≡ method_of self }
    {
        match self {
            Defaults::Make => Method {
                search: Search::Live,
                claim: Claim::Best,
                spread: Spread::Percent(0),
                coarsest: 1,
                finest: 4,
                straight: 0,
                moves: 0,
            },
            Defaults::Map => Method {
                search: Search::Dual,
                claim: Claim::Best,
                spread: Spread::Auto,
                coarsest: 1,
                finest: 16,
                straight: 1_000,
                moves: 0,
            },
        }
    }

    /// The settings of a map.
    pub(crate) fn settings(self, alloc: Global) -> Result<Settings, NoMemory>
        ensures { IfOk result (λ settings. settings ≡ settings_of self) }
    {
        let mut settings = Settings::standard(alloc)?;
        if self == Defaults::Map {
            settings.budget = 100_000;
        }
        Ok(settings)
    }
}
