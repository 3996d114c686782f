//! The command `stations`.

ghost use Rattle.std.specs.Prelude.{◌≡◌, IfOk};
ghost use Rattle.files_door.specs.Fault.{Rose};
ghost use Rattle.command_inputs.specs.Inputs.{input_at, inputs_by};
ghost use Rattle.table_commands.specs.TableWorks.{stations_work};
ghost use Rattle.run_status.specs.Following.{Follows};

use crate::stations::text_of_stations;
use command_inputs::Inputs;
use command_run::Output;
use files_door::Files;
use gtfs_tables::read_stations;
use map_base::Sequence;
use run_status::{Refusal, say};
use std::alloc::Global;

/// Prints the stations of a command's feed.
#[inline(never)]
pub fn print_stations<F: Files>(
    alloc: Global,
    inputs: &Inputs<'_>,
    files: &mut F,
) -> Result<Sequence<Output>, Refusal>
    ensures follows { Follows (F.told files.old) (input_at (inputs_by inputs.now))
        (Rose (F.faults files.old) (F.faults files.new)) (λ outputs. outputs) stations_work result }
{
    let stations = read_stations(alloc, files, inputs.feed)?;
    let text = text_of_stations(alloc, &stations)?;
    Ok(say(alloc, text)?)
}
