//! Why a proof is refused.

use map_base::{LineId, NoMemory, Sequence};
use std::alloc::{AllocError, AllocFailed};

/// The first item of a proof that is refused.
#[derive(Debug, Drop)]
pub enum ProofItem {
    /// A rule that doesn't apply in its turn.
    Rule {
        /// Its place among the rules.
        index: u32,
    },
    /// A part that is none of the problem's in its turn, or that has a tree with a node that fails.
    Part {
        /// Its place among the parts.
        index: u32,
        /// The lines on the way to the first node that fails; none for the part itself or its first node.
        after: Sequence<LineId>,
    },
    /// The targets of the parts do not sum to the cost.
    Total,
}

/// Why `check_proof` doesn't say yes.
#[derive(Debug, Drop)]
pub enum ProofStop {
    /// This is the first item that is refused.
    Refuted(ProofItem),
    /// The allocator had no room.
    NoMemory,
}

impl From<NoMemory> for ProofStop {
    ghost use Rattle.std.specs.Prelude.{◌≡◌};
    ghost use Rattle.order_check.specs.declared.refusal.ProofStop.TheVariants.{NoMemory as WantOfMemory};

    ghost from_gives = { λ _ e. e ≡ WantOfMemory };

    fn from(_refused: NoMemory) -> ProofStop {
        ProofStop::NoMemory
    }
}

impl From<AllocError> for ProofStop {
    ghost use Rattle.std.specs.Prelude.{◌≡◌};
    ghost use Rattle.order_check.specs.declared.refusal.ProofStop.TheVariants.{NoMemory as WantOfMemory};

    ghost from_gives = { λ _ e. e ≡ WantOfMemory };

    fn from(_refused: AllocError) -> ProofStop {
        ProofStop::NoMemory
    }
}

impl<T: Drop> From<AllocFailed<T>> for ProofStop {
    ghost use Rattle.std.specs.Prelude.{◌≡◌};
    ghost use Rattle.order_check.specs.declared.refusal.ProofStop.TheVariants.{NoMemory as WantOfMemory};

    ghost from_gives = { λ _ e. e ≡ WantOfMemory };

    fn from(_refused: AllocFailed<T>) -> ProofStop {
        ProofStop::NoMemory
    }
}
