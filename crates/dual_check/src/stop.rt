//! Why a tree is refused.

use map_base::{LineId, NoMemory};
use std::alloc::{AllocError, AllocFailed};

/// Why `check_dual` doesn't say yes.
#[derive(Debug, Drop)]
pub enum DualStop {
    /// A node fails. The lines tell the way to the first that does, in the order of the text: of each fork that the way
    /// goes over, `a` for its first tree and `b` for its second.
    Failing(Vec<LineId>),
    /// The allocator had no room.
    NoMemory,
}

impl From<NoMemory> for DualStop {
    ghost use Rattle.std.specs.Prelude.{◌≡◌};
    ghost use Rattle.dual_check.specs.declared.stop.DualStop.TheVariants.{NoMemory as WantOfMemory};

    ghost from_gives = { λ _ e. e ≡ WantOfMemory };

    fn from(_refused: NoMemory) -> DualStop {
        DualStop::NoMemory
    }
}

impl From<AllocError> for DualStop {
    ghost use Rattle.std.specs.Prelude.{◌≡◌};
    ghost use Rattle.dual_check.specs.declared.stop.DualStop.TheVariants.{NoMemory as WantOfMemory};

    ghost from_gives = { λ _ e. e ≡ WantOfMemory };

    fn from(_refused: AllocError) -> DualStop {
        DualStop::NoMemory
    }
}

impl<T: Drop> From<AllocFailed<T>> for DualStop {
    ghost use Rattle.std.specs.Prelude.{◌≡◌};
    ghost use Rattle.dual_check.specs.declared.stop.DualStop.TheVariants.{NoMemory as WantOfMemory};

    ghost from_gives = { λ _ e. e ≡ WantOfMemory };

    fn from(_refused: AllocFailed<T>) -> DualStop {
        DualStop::NoMemory
    }
}
