//! The outputs of `improve`.

ghost use Rattle.std.specs.Prelude.{◌≡◌, ◌++◌, IfOk, OnOk, string_bytes};
ghost use Rattle.graph_maps.specs.Improving.{improved_bytes};
ghost use Rattle.command_paths.specs.Paths.{paths_by};
ghost use Rattle.run_status.specs.Outputs.{said};
ghost use Rattle.map_commands.specs.ImproveWorks.{improved_line, improved_outputs};

use crate::outputs::write_map;
use command_paths::MapFiles;
use command_run::Output;
use files_door::Target;
use map_base::{NoMemory, Sequence};
use map_engine::{ImprovedMap, Improvement};
use std::alloc::Global;

/// The outputs of an improved map and its certificate to their files, the map first, and the line that tells of the moves.
pub(crate) fn write_improved(
    alloc: Global,
    files: &MapFiles<'_>,
    improved: ImprovedMap,
) -> Result<Sequence<Output>, NoMemory>
    ensures { IfOk result (λ outputs. outputs ≡ improved_outputs (paths_by files.now) (improved_bytes improved)) }
{
    let line = improved_line(alloc, improved.improvement)?;
    let mut outputs = write_map(alloc, files, improved.map)?.into_vec();
    push_said(&mut outputs, line.into_bytes())?;
    Ok(Sequence::of(outputs))
}

/// The output of a text to standard output, behind others.
fn push_said(outputs: &mut Vec<Output>, text: Vec<u8>) -> Result<(), NoMemory>
    ensures { OnOk result (outputs.new.items ≡ outputs.old.items ++ said text.items) }
{
    outputs.push(Output {
        to: Target::Said,
        bytes: Sequence::of(text),
    })?;
    Ok(())
}

/// The line that tells what a drawing weighed before its moves, what it weighs after them, and how many were made.
fn improved_line(alloc: Global, improvement: Improvement) -> Result<String, NoMemory>
    ensures { IfOk result (λ line. string_bytes line ≡ improved_line improvement) }
{
    let Improvement {
        before,
        after,
        made,
    } = improvement;
    let line = format!(in alloc; "improved {before} {after} {made}\n")?;
    Ok(line)
}
