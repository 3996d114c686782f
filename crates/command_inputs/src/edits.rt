//! The edits of a command's tables and settings.

ghost use Rattle.std.specs.Prelude.{◌≡◌, ◌≤◌, IfOk, All, option_map};
ghost use Rattle.files_door.specs.Fault.{Rose};
ghost use Rattle.map_edits.specs.Effects.{IsInRange};
ghost use Rattle.command_inputs.specs.Inputs.{input_at, inputs_by};
ghost use Rattle.command_inputs.specs.Loading.{changed_in, edited_by, edits_file_work, edits_of};
ghost use Rattle.run_status.specs.Following.{Follows, Gives};

use crate::input_file::read_file;
use crate::inputs::Inputs;
use crate::loaded::Loaded;
use files_door::Files;
use map_edits::{Edit, edited, read_edits};
use run_status::{Input, Refusal};
use std::alloc::Global;
use transit_feed::Tables;

/// What a command works on, by the file of edits that the user names, or as it is.
pub(crate) fn edited_for<F: Files>(
    alloc: Global,
    inputs: &Inputs<'_>,
    loaded: Loaded,
    files: &mut F,
) -> Result<Loaded, Refusal>
    ensures follows { Follows (F.told files.old) (input_at (inputs_by inputs.now))
        (Rose (F.faults files.old) (F.faults files.new)) (λ loaded. loaded)
        (edited_by (inputs_by inputs.now).chosen.edits loaded) result }
    ensures kept { F.told files.new ≡ F.told files.old }
    ensures later { F.faults files.old ≤ F.faults files.new }
{
    match inputs.options.edits {
        Some(_) => edits_file(alloc, inputs, loaded, files),
        None => Ok(loaded),
    }
}

/// What the edits of the file that the user names make.
fn edits_file<F: Files>(
    alloc: Global,
    inputs: &Inputs<'_>,
    loaded: Loaded,
    files: &mut F,
) -> Result<Loaded, Refusal>
    ensures follows { Follows (F.told files.old) (input_at (inputs_by inputs.now))
        (Rose (F.faults files.old) (F.faults files.new)) (λ loaded. loaded) (edits_file_work loaded) result }
    ensures kept { F.told files.new ≡ F.told files.old }
    ensures later { F.faults files.old ≤ F.faults files.new }
{
    let bytes = read_file(alloc, inputs, Input::Edits, files)?;
    changed_in(alloc, loaded, bytes)
}

/// What the edits in the bytes of a file make of tables and settings; the file has to be there.
fn changed_in(alloc: Global, loaded: Loaded, bytes: Option<Vec<u8>>) -> Result<Loaded, Refusal>
    ensures { Gives (λ loaded. loaded) result (changed_in loaded (option_map (λ v. v.items) bytes)) }
{
    let edits = edits_of(alloc, &loaded.tables, bytes)?;
    let (tables, settings) = edited(alloc, &loaded.tables, &loaded.settings, edits.as_slice())?;
    Ok(Loaded {
        settings,
        method: loaded.method,
        tables,
    })
}

/// The edits that stand at the end of a file of edits, or why there are none.
fn edits_of(alloc: Global, tables: &Tables, bytes: Option<Vec<u8>>) -> Result<Vec<Edit>, Refusal>
    ensures edits { Gives (λ edits. edits.items) result (edits_of tables.now (option_map (λ v. v.items) bytes)) }
    ensures range { IfOk result (λ edits. All IsInRange edits.items) }
{
    let Some(bytes) = bytes else {
        return Err(Refusal::BadEdit { line: 0 });
    };
    Ok(read_edits(alloc, bytes.as_slice(), tables)?)
}
