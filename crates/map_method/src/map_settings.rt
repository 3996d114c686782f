//! The settings of a map, and how it is found.

ghost use Rattle.std.specs.Prelude.{◌≡◌, IfOk};
ghost use Rattle.map_method.specs.Defaults.{default_choices};

use crate::defaults::Defaults;
use crate::method::Method;
use map_base::{NoMemory, Settings};
use std::alloc::Global;

/// The settings of a map, how it is found, and the settings that hold where a user sets none.
#[derive(Debug, Drop)]
pub struct MapSettings {
    pub settings: Settings,
    pub method: Method,
    pub defaults: Defaults,
}

impl MapSettings {
    /// The settings where a user sets none.
    pub fn standard(alloc: Global, defaults: Defaults) -> Result<MapSettings, NoMemory>
        ensures { IfOk result (λ all. all ≡ default_choices defaults) }
    {
        Ok(MapSettings {
            settings: defaults.settings(alloc)?,
            method: defaults.method(),
            defaults,
        })
    }
}
