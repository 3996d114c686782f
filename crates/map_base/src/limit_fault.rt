//! A limit that is met, or want of memory.

ghost use Rattle.std.specs.Prelude.{◌≡◌};
ghost use Rattle.map_base.specs.declared.limit_fault.LimitFault.TheVariants.{Limit as AtLimit, NoMemory as OutOfMemory};

use crate::limit::Limit;
use crate::memory::NoMemory;
use std::alloc::{AllocError, AllocFailed};

/// Why a call that counts what it makes has no result.
#[derive(Clone, Copy, Debug, PartialEq, Eq)]
pub enum LimitFault {
    /// There is more of something than the greatest allowed number.
    Limit(Limit),
    /// The allocator had no room.
    NoMemory,
}

impl From<Limit> for LimitFault {
    ghost from_gives = { λ limit fault. fault ≡ AtLimit limit };

    fn from(limit: Limit) -> LimitFault {
        LimitFault::Limit(limit)
    }
}

impl From<NoMemory> for LimitFault {
    ghost from_gives = { λ _ fault. fault ≡ OutOfMemory };

    fn from(_refused: NoMemory) -> LimitFault {
        LimitFault::NoMemory
    }
}

impl From<AllocError> for LimitFault {
    ghost from_gives = { λ _ fault. fault ≡ OutOfMemory };

    fn from(_refused: AllocError) -> LimitFault {
        LimitFault::NoMemory
    }
}

impl<T: Drop> From<AllocFailed<T>> for LimitFault {
    ghost from_gives = { λ _ fault. fault ≡ OutOfMemory };

    fn from(_refused: AllocFailed<T>) -> LimitFault {
        LimitFault::NoMemory
    }
}
