//! Why there is no map, and why one is refused.

ghost use Rattle.std.specs.Prelude.{◌≡◌};
ghost use Rattle.map_faults.specs.declared.fault.MakeFault.TheVariants.{NoMemory as OutOfMemory};
ghost use Rattle.map_faults.specs.declared.fault.CheckFault.TheVariants.{NoMemory as WantOfMemory};
ghost use Rattle.map_faults.specs.Faults.{of_limit, of_route, limit_stop, text_stop, drawing_stop, proof_stop};

use decimal_text::BadText;
use map_base::{Limit, LimitFault, NoMemory, SegId};
use octi_grid::{DrawWhy, DrawingStop};
use order_check::{ProofItem, ProofStop};
use segment_router::RouteFault;
use std::alloc::{AllocError, AllocFailed};

/// Why no map is made.
#[derive(Clone, Copy, Debug, PartialEq, Eq)]
pub enum MakeFault {
    /// No fineness of the grid gives each segment a walk; at the last one this is the first segment without one.
    NoRoute { seg: SegId },
    /// The search of this part of the untangled problem, counted from 0, meets more branch nodes than the budget;
    /// `branches` is the budget plus 1.
    Spent { component: u32, branches: u32 },
    /// There is more of something than the greatest allowed number.
    Limit(Limit),
    /// The allocator had no room.
    NoMemory,
}

/// What is refused of a map and its certificate.
#[derive(Debug, Drop)]
pub enum CheckItem {
    /// The certificate's text: here the first line begins that has not the form due there.
    Text { at: u64 },
    /// The counts are not those of the line graph.
    Graph,
    /// The important lines are not those of the line graph.
    Importance,
    /// The first walk that with its predecessors is not legal, and why.
    Walk { seg: SegId, why: DrawWhy },
    /// The first segment whose order has not its lines, each once.
    Order { seg: SegId },
    /// The cost is not that of the orders.
    Cost,
    /// The proof that no orders cost less.
    Proof(ProofItem),
    /// The map: here is its first byte that is not the picture's.
    Picture { at: u64 },
}

/// Why a map is not accepted.
#[derive(Debug, Drop)]
pub enum CheckFault {
    /// This is the first item that is refused.
    Refuted(CheckItem),
    /// There is more of something than the greatest allowed number.
    Limit(Limit),
    /// The allocator had no room.
    NoMemory,
}

impl From<NoMemory> for MakeFault {
    ghost from_gives = { λ _ fault. fault ≡ OutOfMemory };

    fn from(_refused: NoMemory) -> MakeFault {
        MakeFault::NoMemory
    }
}

impl From<AllocError> for MakeFault {
    ghost from_gives = { λ _ fault. fault ≡ OutOfMemory };

    fn from(_refused: AllocError) -> MakeFault {
        MakeFault::NoMemory
    }
}

impl<T: Drop> From<AllocFailed<T>> for MakeFault {
    ghost from_gives = { λ _ fault. fault ≡ OutOfMemory };

    fn from(_refused: AllocFailed<T>) -> MakeFault {
        MakeFault::NoMemory
    }
}

impl From<RouteFault> for MakeFault {
    ghost from_gives = { λ stop fault. fault ≡ of_route stop };

    fn from(stop: RouteFault) -> MakeFault {
        match stop {
            RouteFault::NoRoute { seg } => MakeFault::NoRoute { seg },
            RouteFault::Limit(limit) => MakeFault::Limit(limit),
            RouteFault::NoMemory => MakeFault::NoMemory,
        }
    }
}

impl From<LimitFault> for MakeFault {
    ghost from_gives = { λ stop fault. fault ≡ of_limit stop };

    fn from(stop: LimitFault) -> MakeFault {
        match stop {
            LimitFault::Limit(limit) => MakeFault::Limit(limit),
            LimitFault::NoMemory => MakeFault::NoMemory,
        }
    }
}

impl From<NoMemory> for CheckFault {
    ghost from_gives = { λ _ fault. fault ≡ WantOfMemory };

    fn from(_refused: NoMemory) -> CheckFault {
        CheckFault::NoMemory
    }
}

impl From<AllocError> for CheckFault {
    ghost from_gives = { λ _ fault. fault ≡ WantOfMemory };

    fn from(_refused: AllocError) -> CheckFault {
        CheckFault::NoMemory
    }
}

impl<T: Drop> From<AllocFailed<T>> for CheckFault {
    ghost from_gives = { λ _ fault. fault ≡ WantOfMemory };

    fn from(_refused: AllocFailed<T>) -> CheckFault {
        CheckFault::NoMemory
    }
}

impl From<BadText> for CheckFault {
    ghost from_gives = { λ stop fault. fault ≡ text_stop stop };

    fn from(stop: BadText) -> CheckFault {
        match stop {
            BadText::At { at } => CheckFault::Refuted(CheckItem::Text { at }),
            BadText::NoMemory => CheckFault::NoMemory,
        }
    }
}

impl From<DrawingStop> for CheckFault {
    ghost from_gives = { λ stop fault. fault ≡ drawing_stop stop };

    fn from(stop: DrawingStop) -> CheckFault {
        match stop {
            DrawingStop::Bad { seg, why } => CheckFault::Refuted(CheckItem::Walk { seg, why }),
            DrawingStop::NoMemory => CheckFault::NoMemory,
        }
    }
}

impl From<LimitFault> for CheckFault {
    ghost from_gives = { λ stop fault. fault ≡ limit_stop stop };

    fn from(stop: LimitFault) -> CheckFault {
        match stop {
            LimitFault::Limit(limit) => CheckFault::Limit(limit),
            LimitFault::NoMemory => CheckFault::NoMemory,
        }
    }
}

impl From<ProofStop> for CheckFault {
    ghost from_gives = { λ stop fault. fault ≡ proof_stop stop };

    fn from(stop: ProofStop) -> CheckFault {
        match stop {
            ProofStop::Refuted(item) => CheckFault::Refuted(CheckItem::Proof(item)),
            ProofStop::NoMemory => CheckFault::NoMemory,
        }
    }
}
