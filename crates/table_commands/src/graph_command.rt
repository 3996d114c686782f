//! The command `graph`.

ghost use Rattle.std.specs.Prelude.{IfOk};
ghost use Rattle.files_door.specs.Fault.{Rose};
ghost use Rattle.line_graph.specs.Outcome.{graph_outcome};
ghost use Rattle.command_inputs.specs.Inputs.{input_at, inputs_by};
ghost use Rattle.table_commands.specs.TableWorks.{drawn, graph_work, AreOfGraph, TellsGraph};
ghost use Rattle.run_status.specs.Following.{Follows, Gives};

use command_inputs::{Inputs, Loaded, load};
use command_run::Output;
use files_door::Files;
use line_graph::{build, print_graph};
use map_base::Sequence;
use run_status::{Refusal, say};
use std::alloc::Global;

/// Prints the line graph of a command's feed.
#[inline(never)]
pub fn print_line_graph<F: Files>(
    alloc: Global,
    inputs: &Inputs<'_>,
    files: &mut F,
) -> Result<Sequence<Output>, Refusal>
    ensures follows { Follows (F.told files.old) (input_at (inputs_by inputs.now))
        (Rose (F.faults files.old) (F.faults files.new)) (λ outputs. outputs) (graph_work (inputs_by inputs.now).chosen) result }
    ensures keeps { IfOk result (AreOfGraph (F.told files.old) (inputs_by inputs.now)) }
{
    let loaded = load(alloc, inputs, files)?;
    draw(alloc, &loaded)
}

/// The text of the line graph of what is loaded, or the limit that is met first.
fn draw(alloc: Global, loaded: &Loaded) -> Result<Sequence<Output>, Refusal>
    ensures given { Gives (λ outputs. outputs) result
        (drawn loaded.now.tables (graph_outcome loaded.now.settings.near loaded.now.tables)) }
    ensures tells { IfOk result (TellsGraph loaded.now) }
{
    let graph = build(alloc, &loaded.tables, &loaded.settings)?;
    let text = print_graph(alloc, &graph, &loaded.tables)?;
    Ok(say(alloc, text)?)
}
