//! Why no edit was read.

ghost use Rattle.std.specs.Prelude.{◌≡◌};
ghost use Rattle.map_edits.specs.declared.fault.EditStop.TheVariants.{NoMemory as NoRoom};
ghost use Rattle.map_edits.specs.declared.fault.EditsFault.TheVariants.{NoMemory as OutOfMemory};

use map_base::NoMemory;

/// Why a line gives no edit.
#[derive(Clone, Copy, Debug, PartialEq, Eq)]
pub enum EditStop {
    /// It is no edit.
    BadEdit,
    /// The allocator had no room.
    NoMemory,
}

impl From<NoMemory> for EditStop {
    ghost from_gives = { λ _ stop. stop ≡ NoRoom };

    fn from(_refused: NoMemory) -> EditStop {
        EditStop::NoMemory
    }
}

/// Why a script gives no edits.
#[derive(Clone, Copy, Debug, PartialEq, Eq)]
pub enum EditsFault {
    /// Its first line that is no edit, names no line or station of the tables, or undoes with nothing left; lines
    /// are counted from 1.
    BadEdit { line: u64 },
    /// The allocator had no room.
    NoMemory,
}

impl From<NoMemory> for EditsFault {
    ghost from_gives = { λ _ fault. fault ≡ OutOfMemory };

    fn from(_refused: NoMemory) -> EditsFault {
        EditsFault::NoMemory
    }
}
