//! What a search finds, and why it stops.

use map_base::{Limit, NoMemory};
use order_proof::Tree;
use order_values::Orders;
use std::alloc::{AllocError, AllocFailed};

/// Orders of a part that cost least, and the tree that shows it.
#[derive(Debug, Drop)]
pub struct Found {
    /// The orders of the part's segments, in their order.
    pub orders: Orders,
    /// What they cost.
    pub target: u64,
    /// The splits of the tree.
    pub branches: u32,
    /// A tree that is accepted at the target.
    pub tree: Tree,
}

/// Why `search` finds nothing.
#[derive(Clone, Copy, Debug, PartialEq, Eq)]
pub enum SearchFault {
    /// The tree has more splits than the budget; `branches` is the budget plus 1.
    Spent { branches: u32 },
    /// The part has more places than are allowed.
    TooDeep(Limit),
    /// The allocator had no room.
    NoMemory,
}

impl From<NoMemory> for SearchFault {
    ghost use Rattle.std.specs.Prelude.{◌≡◌};
    ghost use Rattle.order_search.specs.declared.found.SearchFault.TheVariants.{NoMemory as WantOfMemory};

    ghost from_gives = { λ _ e. e ≡ WantOfMemory };

    fn from(_refused: NoMemory) -> SearchFault {
        SearchFault::NoMemory
    }
}

impl From<AllocError> for SearchFault {
    ghost use Rattle.std.specs.Prelude.{◌≡◌};
    ghost use Rattle.order_search.specs.declared.found.SearchFault.TheVariants.{NoMemory as WantOfMemory};

    ghost from_gives = { λ _ e. e ≡ WantOfMemory };

    fn from(_refused: AllocError) -> SearchFault {
        SearchFault::NoMemory
    }
}

impl<T: Drop> From<AllocFailed<T>> for SearchFault {
    ghost use Rattle.std.specs.Prelude.{◌≡◌};
    ghost use Rattle.order_search.specs.declared.found.SearchFault.TheVariants.{NoMemory as WantOfMemory};

    ghost from_gives = { λ _ e. e ≡ WantOfMemory };

    fn from(_refused: AllocFailed<T>) -> SearchFault {
        SearchFault::NoMemory
    }
}
