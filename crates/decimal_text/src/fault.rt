//! Why a text could not be read.

ghost use Rattle.std.specs.Prelude.{◌≡◌};
ghost use Rattle.decimal_text.specs.declared.fault.Stop.TheVariants.{Memory};

use map_base::NoMemory;
use std::alloc::{AllocError, AllocFailed};

/// Why no value was read.
#[derive(Clone, Copy, Debug, PartialEq, Eq)]
pub enum BadText {
    /// No value's text stands there. `at` is where the first line begins that has not the form due there, or the
    /// number of the bytes, where a line is missing at their end.
    At { at: u64 },
    /// There was no room in memory.
    NoMemory,
}

/// Where reading stopped.
#[derive(Clone, Copy, Debug)]
pub enum Stop {
    /// Before a line that has not the form due there: so many bytes are left from its start on.
    Wrong(usize),
    /// There was no room in memory.
    Memory,
}

impl From<NoMemory> for Stop {
    ghost from_gives = { λ _ e. e ≡ Memory };

    fn from(_refused: NoMemory) -> Stop {
        Stop::Memory
    }
}

impl From<AllocError> for Stop {
    ghost from_gives = { λ _ e. e ≡ Memory };

    fn from(_refused: AllocError) -> Stop {
        Stop::Memory
    }
}

impl<T: Drop> From<AllocFailed<T>> for Stop {
    ghost from_gives = { λ _ e. e ≡ Memory };

    fn from(_refused: AllocFailed<T>) -> Stop {
        Stop::Memory
    }
}
