//! Why a call of files or sinks was refused.

ghost use Rattle.std.specs.Prelude.{◌≡◌};

use map_base as base;
use std::alloc::{AllocError, AllocFailed};

/// A call of `Files` or `Sinks` was refused.
#[derive(Clone, Copy, Debug, PartialEq, Eq)]
pub enum Stop {
    /// Reading or writing failed. It comes only where the object's count of faults rose.
    Failed,
    /// The allocator had no room.
    NoMemory,
}

impl From<AllocError> for Stop {
    ghost use Rattle.files_door.specs.declared.stop.Stop.TheVariants.{NoMemory};

    ghost from_gives = { λ _ stop. stop ≡ NoMemory };

    fn from(_refused: AllocError) -> Stop {
        Stop::NoMemory
    }
}

impl<T: Drop> From<AllocFailed<T>> for Stop {
    ghost use Rattle.files_door.specs.declared.stop.Stop.TheVariants.{NoMemory};

    ghost from_gives = { λ _ stop. stop ≡ NoMemory };

    fn from(_refused: AllocFailed<T>) -> Stop {
        Stop::NoMemory
    }
}

impl From<base::NoMemory> for Stop {
    ghost use Rattle.files_door.specs.declared.stop.Stop.TheVariants.{NoMemory};

    ghost from_gives = { λ _ stop. stop ≡ NoMemory };

    fn from(_refused: base::NoMemory) -> Stop {
        Stop::NoMemory
    }
}
