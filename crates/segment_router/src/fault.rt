//! Why a line graph has no drawing.

use map_base::{Limit, NoMemory, SegId};

/// Why routing stops.
#[derive(Clone, Copy, Debug, PartialEq, Eq)]
pub enum RouteFault {
    /// On no grid has every segment a free walk; on the last one this is the first segment without.
    NoRoute { seg: SegId },
    /// The finest grid under an explicit cell has too many cells.
    Limit(Limit),
    /// Memory ran out.
    NoMemory,
}

impl From<NoMemory> for RouteFault {
    ghost use Rattle.std.specs.Prelude.{◌≡◌};
    ghost use Rattle.segment_router.specs.declared.fault.RouteFault.TheVariants.{NoMemory as WantOfMemory};

    ghost from_gives = { λ _ e. e ≡ WantOfMemory };

    fn from(_refused: NoMemory) -> RouteFault {
        RouteFault::NoMemory
    }
}
