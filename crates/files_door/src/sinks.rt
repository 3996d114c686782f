//! Sinks that bytes are written to, one target at a time.

ghost use Rattle.std.specs.Prelude.{◌≡◌, ℕ, ◌<◌, ◌≤◌, List, [], ◌∷◌, take, length, Option, None, Some, IsSome, IfOk, OnOk, OnErr};
ghost use Rattle.files_door.specs.Fault.{HasCause, Rose};
ghost use Rattle.files_door.specs.Targets.{Written};
ghost use Rattle.files_door.specs.Acts.{Does, begun, puts};
ghost use Rattle.files_door.specs.declared.target.Target.{Target};

use crate::stop::Stop;
use crate::target::Target;

/// Targets, of which one at a time is begun and written to.
pub trait Sinks {
    /// What each target holds that was begun, where that is told.
    ghost written: { Self → Option Written };

    /// The target that is written to.
    ghost current: { Self → Option Target };

    /// How often it failed. The count never falls.
    ghost faults: { Self → ℕ };

    /// Makes the target the current one. A file is emptied, and standard output keeps its bytes. After a
    /// refusal each target holds what it held, and none is current.
    fn begin(&mut self, to: &Target) -> Result<(), Stop>
        ensures begun { OnOk result (Does (begun to.now ∷ []) (written self.old) (written self.new)) }
        ensures current { OnOk result (current self.new ≡ Some to.now) }
        ensures refused { OnErr result (written self.new ≡ written self.old) }
        ensures none { OnErr result (current self.new ≡ None) }
        ensures cause { HasCause (faults self.old) (faults self.new) result };

    /// Appends a prefix of the piece to the current target, and answers its length. Where it takes nothing
    /// of a piece that is not empty, the count of faults rises. After a refusal each target holds what it
    /// held. The target stays the current one.
    fn write(&mut self, piece: &[u8]) -> Result<usize, Stop>
        requires { IsSome (current self.old) }
        ensures bound { IfOk result (λ count. count ≤ length piece.now) }
        ensures appended { IfOk result (λ count. Does (puts (current self.old) (take count piece.now)) (written self.old) (written self.new)) }
        ensures nothing { IfOk result (λ count. count ≡ 0 → 0 < length piece.now → Rose (faults self.old) (faults self.new)) }
        ensures refused { OnErr result (written self.new ≡ written self.old) }
        ensures current { current self.new ≡ current self.old }
        ensures cause { HasCause (faults self.old) (faults self.new) result };
}
