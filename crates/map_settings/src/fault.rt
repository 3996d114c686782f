//! Why a settings file makes no settings.

ghost use Rattle.std.specs.Prelude.{◌≡◌};
ghost use Rattle.map_settings.specs.declared.fault.SettingsFault.TheVariants.{NoMemory as OutOfMemory};
ghost use Rattle.map_settings.specs.declared.fault.EntryFault.TheVariants.{NoMemory as NoRoom};

use map_base::{NoMemory, Text};
use std::alloc::{AllocError, AllocFailed};

/// Why a settings file is refused.
#[derive(Debug, Drop)]
pub enum SettingsWhy {
    /// The file is not there.
    Missing,
    /// Its bytes are not UTF-8, or no TOML document.
    NotToml,
    /// This key is unknown, or its value is of another type or out of range. Of several such keys it is the least
    /// by its bytes.
    Key(Text),
}

/// Why a call that reads a settings file has no result.
#[derive(Debug, Drop)]
pub enum SettingsFault {
    /// The file is refused.
    Bad(SettingsWhy),
    /// The allocator had no room.
    NoMemory,
}

impl From<NoMemory> for SettingsFault {
    ghost from_gives = { λ _ fault. fault ≡ OutOfMemory };

    fn from(_refused: NoMemory) -> SettingsFault {
        SettingsFault::NoMemory
    }
}

/// Why one entry of a settings file changes nothing.
#[derive(Clone, Copy, Debug, PartialEq, Eq)]
pub(crate) enum EntryFault {
    /// Its key is unknown, or its value is of another type or out of range.
    Bad,
    /// The allocator had no room.
    NoMemory,
}

impl From<NoMemory> for EntryFault {
    ghost from_gives = { λ _ fault. fault ≡ NoRoom };

    fn from(_refused: NoMemory) -> EntryFault {
        EntryFault::NoMemory
    }
}

impl From<AllocError> for EntryFault {
    ghost from_gives = { λ _ fault. fault ≡ NoRoom };

    fn from(_refused: AllocError) -> EntryFault {
        EntryFault::NoMemory
    }
}

impl<T: Drop> From<AllocFailed<T>> for EntryFault {
    ghost from_gives = { λ _ fault. fault ≡ NoRoom };

    fn from(_refused: AllocFailed<T>) -> EntryFault {
        EntryFault::NoMemory
    }
}
