//! The command `export`.

ghost use Rattle.std.specs.Prelude.{◌≡◌, IfOk};
ghost use Rattle.files_door.specs.Fault.{Rose};
ghost use Rattle.line_graph.specs.Outcome.{graph_outcome};
ghost use Rattle.command_inputs.specs.Inputs.{input_at, inputs_by};
ghost use Rattle.export_command.specs.ExportWorks.{export_work, exported, file_outputs, AreOfExport, WritesGraph};
ghost use Rattle.run_status.specs.Following.{Follows, Gives};

use crate::written::exported_text;
use command_inputs::{Inputs, Loaded, load};
use command_run::Output;
use files_door::{Files, Target};
use map_base::{NoMemory, Sequence, Text};
use run_status::Refusal;
use std::alloc::Global;

/// Writes the line graph of a command's feed to the file of this path.
pub fn export_graph<F: Files>(
    alloc: Global,
    inputs: &Inputs<'_>,
    out: &str,
    files: &mut F,
) -> Result<Sequence<Output>, Refusal>
    ensures follows { Follows (F.told files.old) (input_at (inputs_by inputs.now))
        (Rose (F.faults files.old) (F.faults files.new)) (λ outputs. outputs) (export_work (inputs_by inputs.now).chosen out.now) result }
    ensures keeps { IfOk result (AreOfExport (F.told files.old) (inputs_by inputs.now) out.now) }
{
    let loaded = load(alloc, inputs, files)?;
    exported(alloc, &loaded, out)
}

/// The line graph of what is loaded to its file, or the limit that is met first.
fn exported(alloc: Global, loaded: &Loaded, out: &str) -> Result<Sequence<Output>, Refusal>
    ensures given { Gives (λ outputs. outputs) result
        (exported loaded.now out.now (graph_outcome loaded.now.settings.near loaded.now.tables)) }
    ensures writes { IfOk result (WritesGraph loaded.now out.now) }
{
    let text = exported_text(alloc, &loaded.tables, &loaded.settings)?;
    Ok(write_file(alloc, out, text)?)
}

/// The one output of a text to its file.
fn write_file(alloc: Global, path: &str, text: Vec<u8>) -> Result<Sequence<Output>, NoMemory>
    ensures { IfOk result (λ outputs. outputs ≡ file_outputs path.now text.items) }
{
    let mut outputs = Vec::new(alloc);
    outputs.push(Output {
        to: Target::Path(Text::of(alloc, path)?),
        bytes: Sequence::of(text),
    })?;
    Ok(Sequence::of(outputs))
}
