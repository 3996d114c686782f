//! Sinks in memory with little room.

ghost use Rattle.std.specs.Prelude.{◌≡◌, ◌+◌, ◌<◌, ◌↔◌, [], None, Some, IsSome, IsErrOf, IfOk, IfErr, OnOk, length, min, take};
ghost use Rattle.std.specs.Option.{option_copied};
ghost use Rattle.files_door.specs.Acts.{Does, begin_target, puts};
ghost use Rattle.files_door.specs.SinksInMemory.{refused};
ghost use Rattle.files_door.specs.Targets.{held_by};
ghost use Rattle.files_door.specs.declared.stop.Stop.TheVariants.{Failed, NoMemory};

use crate::counts::next;
use crate::sinks::Sinks;
use crate::steady_sinks::SteadySinks;
use crate::stop::Stop;
use crate::target::Target;
use std::alloc::Global;
use std::marker::Model;

/// Sinks in memory that take so many bytes in all. From then on each write of a piece that is not empty
/// fails. To begin a target gives no room back.
#[derive(Drop)]
pub struct MemorySinks {
    held: SteadySinks,
    room: u64,
    faults: u64,
}

impl Model for MemorySinks {
    ghost use Rattle.files_door.specs.SinksInMemory.{RoomySinks};

    ghost Value = { RoomySinks };

    ghost view = { λ m. record { written = m.held.written; current = m.held.current; room = m.room; faults = m.faults } };
}

impl MemorySinks {
    /// No target was begun, and there is room for so many bytes.
    pub fn with_room(alloc: Global, room: u64) -> MemorySinks
        ensures { result ≡ record { written = []; current = None; room = room; faults = 0 } }
    {
        MemorySinks {
            held: SteadySinks::none(alloc),
            room,
            faults: 0,
        }
    }

    /// What the target holds; none where it was never begun.
    pub fn written(&self, to: &Target) -> Option<&[u8]>
        ensures { option_copied result ≡ held_by to.now self.now.written }
    {
        self.held.written(to)
    }
}

impl Sinks for MemorySinks {
    ghost written = { λ m. Some m.written };

    ghost current = { λ m. m.current };

    ghost faults = { λ m. m.faults };

    fn begin(&mut self, to: &Target) -> Result<(), Stop>
        ensures ok { OnOk result (self.new ≡ record self.old { written = begin_target to.now self.old.written; current = Some to.now }) }
        ensures err { IfErr result (λ stop. (stop ≡ NoMemory) × (self.new ≡ record self.old { current = None })) }
    {
        self.held.begin(to)
    }

    fn write(&mut self, piece: &[u8]) -> Result<usize, Stop>
        requires { IsSome self.old.current }
        ensures fails { IsErrOf result Failed ↔ ((self.old.room ≡ 0) × (0 < length piece.now)) }
        ensures count { IfOk result (λ count. count ≡ min self.old.room (length piece.now)) }
        ensures appended { IfOk result (λ count. Does (puts self.old.current (take count piece.now)) (Some self.old.written) (Some self.new.written)) }
        ensures room { IfOk result (λ count. self.new.room + count ≡ self.old.room) }
        ensures faults { OnOk result (self.new.faults ≡ self.old.faults) }
        ensures err { IfErr result (λ stop. self.new ≡ refused stop self.old) }
        ensures current { self.new.current ≡ self.old.current }
    {
        if self.room == 0 && !piece.is_empty() {
            self.faults = next(self.faults);
            return Err(Stop::Failed);
        }
        let count = self.room.min(piece.len() as u64) as usize;
        self.held.write(&piece[..count])?;
        self.room -= count as u64;
        Ok(count)
    }
}
