//! Files that are read for a command beside the tables of its feed.

ghost use Rattle.std.specs.Prelude.{◌≡◌, ◌≤◌, option_map, IfOk, IfSome};
ghost use Rattle.files_door.specs.Fault.{Rose};
ghost use Rattle.files_door.specs.Files.{file_at};
ghost use Rattle.command_inputs.specs.Inputs.{input_at, inputs_by};
ghost use Rattle.run_status.specs.Refusals.{not_read};
ghost use Rattle.command_inputs.specs.Loading.{file_work};
ghost use Rattle.run_status.specs.Following.{Follows};

use crate::inputs::{Inputs, path_of};
use files_door::{DoorFault, Files, read_all};
use map_base::LimitKind;
use run_status::{Input, Refusal};
use std::alloc::Global;

/// All bytes of the file that has this role for a command, if it is there.
pub fn read_file<F: Files>(
    alloc: Global,
    inputs: &Inputs<'_>,
    input: Input,
    files: &mut F,
) -> Result<Option<Vec<u8>>, Refusal>
    ensures follows { Follows (F.told files.old) (input_at (inputs_by inputs.now))
        (Rose (F.faults files.old) (F.faults files.new)) (option_map (λ v. v.items)) (file_work input) result }
    ensures given { IfOk result (λ file. IfSome (F.told files.old) (λ all.
        file_at all (input_at (inputs_by inputs.now) input) ≡ option_map (λ v. v.items) file)) }
    ensures kept { F.told files.new ≡ F.told files.old }
    ensures later { F.faults files.old ≤ F.faults files.new }
{
    let path = path_of(alloc, inputs, input)?;
    match read_all(alloc, files, path.as_str(), LimitKind::File.most()) {
        Ok(bytes) => Ok(Some(bytes)),
        Err(fault) => not_read(input, fault),
    }
}

/// What a fault of the door is for a file of this role, which may be absent.
fn not_read(input: Input, fault: DoorFault) -> Result<Option<Vec<u8>>, Refusal>
    ensures { result ≡ not_read input fault }
{
    match fault {
        DoorFault::Absent => Ok(None),
        DoorFault::ReadFault => Err(Refusal::ReadFault { input }),
        DoorFault::TooLong(limit) => Err(Refusal::Limit(limit)),
        DoorFault::NoMemory => Err(Refusal::NoMemory),
    }
}
