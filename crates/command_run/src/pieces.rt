//! An output that is written as it is made, piece after piece.

ghost use Rattle.std.specs.Prelude.{◌≡◌, IsSome};
ghost use Rattle.files_door.specs.Fault.{HasCause};
ghost use Rattle.files_door.specs.Acts.{puts};
ghost use Rattle.command_run.specs.Writing.{DoesSome};

use files_door::{Sinks, Stop, WriteStop, write_all};

/// Appends the next piece of an output to the current target, which stays the current one. Where that is refused, a
/// beginning of the piece stands there.
pub fn write_piece<S: Sinks>(sinks: &mut S, piece: &[u8]) -> Result<(), Stop>
    requires { IsSome (S.current sinks.old) }
    ensures done { DoesSome (puts (S.current sinks.old) piece.now) (S.written sinks.old) (S.written sinks.new) result }
    ensures current { S.current sinks.new ≡ S.current sinks.old }
    ensures cause { HasCause (S.faults sinks.old) (S.faults sinks.new) result }
{
    match write_all(sinks, piece) {
        Ok(()) => Ok(()),
        Err(WriteStop::Fault { .. }) => Err(Stop::Failed),
        Err(WriteStop::NoMemory { .. }) => Err(Stop::NoMemory),
    }
}
