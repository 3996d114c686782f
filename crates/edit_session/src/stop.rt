//! Why a script was not followed to where it ends.

ghost use Rattle.std.specs.Prelude.{◌≡◌};
ghost use Rattle.edit_session.specs.declared.stop.ScriptStop.TheVariants as script_stop;
ghost use Rattle.edit_session.specs.Playing.{stopped_by};

use files_door::Stop;
use run_status::Refusal;

/// Why a script was not followed to its end or its first bad line.
#[derive(Debug, Drop)]
pub enum ScriptStop {
    /// The feed, its settings or the script is refused. Nothing is written.
    Refused(Refusal),
    /// The output could not be written, and is cut short.
    WriteFault,
    /// The allocator had no room while the script was followed. A beginning of the output is written.
    NoMemory,
}

impl From<Refusal> for ScriptStop {
    ghost from_gives = { λ refusal stop. stop ≡ script_stop.Refused refusal };

    fn from(refusal: Refusal) -> ScriptStop {
        ScriptStop::Refused(refusal)
    }
}

impl From<Stop> for ScriptStop {
    ghost from_gives = { λ given stop. stop ≡ stopped_by given };

    fn from(given: Stop) -> ScriptStop {
        match given {
            Stop::Failed => ScriptStop::WriteFault,
            Stop::NoMemory => ScriptStop::NoMemory,
        }
    }
}
