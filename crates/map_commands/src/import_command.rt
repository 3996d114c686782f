//! The command `import`.

ghost use Rattle.std.specs.Prelude.{◌≡◌, ◌≤◌, ◌+◌, [], Ok, IfOk, option_map};
ghost use Rattle.files_door.specs.Fault.{Rose};
ghost use Rattle.command_inputs.specs.Inputs.{input_at, inputs_by};
ghost use Rattle.command_paths.specs.Paths.{paths_by};
ghost use Rattle.graph_json.specs.Outcome.{IsComplete};
ghost use Rattle.graph_maps.specs.Keeping.{left_on};
ghost use Rattle.graph_maps.specs.Making.{MapBytes, made_on};
ghost use Rattle.graph_maps.specs.Promises.{IsMadeOn};
ghost use Rattle.graph_maps.specs.Subjects.{told_by};
ghost use Rattle.map_commands.specs.ImportWorks.{graph_in, graph_work, import_work, map_at, read_work, with_graph, AreOfImported, SearchesImported};
ghost use Rattle.map_commands.specs.MapWorks.{map_outputs};
ghost use Rattle.run_status.specs.Following.{Follows, Gives};

use crate::outputs::write_map;
use command_inputs::{Inputs, read_file, settings_for};
use command_paths::MapFiles;
use command_run::Output;
use files_door::Files;
use graph_json::{Imported, read_graph};
use graph_maps::{Kept, make_from};
use map_base::{Sequence, Stage, Steps};
use map_method::MapSettings;
use run_status::{GraphWhy, Input, Refusal};
use std::alloc::Global;
use std::sync::ledger::Ledger;

/// Makes the map of a graph file, and its certificate. Of the settings the weights, the cell and the budget count, and how
/// a map is found.
#[inline(never)]
pub fn import_graph<F: Files, L: Ledger>(
    alloc: Global,
    inputs: &Inputs<'_>,
    map_files: &MapFiles<'_>,
    files: &mut F,
    steps: &mut Steps<L>,
) -> Result<Sequence<Output>, Refusal>
    ensures follows { Follows (F.told files.old) (input_at (inputs_by inputs.now))
        (Rose (F.faults files.old) (F.faults files.new)) (λ outputs. outputs)
        (import_work (inputs_by inputs.now).chosen (paths_by map_files.now)) result }
    ensures keeps { IfOk result (AreOfImported (F.told files.old) (inputs_by inputs.now) (paths_by map_files.now)) }
    ensures steps { SearchesImported (F.told files.old) (inputs_by inputs.now) steps.old steps.new }
{
    steps.enter(Stage::Reading);
    let both = read_both(alloc, inputs, files)?;
    map_of(alloc, &both, map_files, steps)
}

/// The settings of a command, and the graph of its graph file.
fn read_both<F: Files>(
    alloc: Global,
    inputs: &Inputs<'_>,
    files: &mut F,
) -> Result<(MapSettings, Imported), Refusal>
    ensures follows { Follows (F.told files.old) (input_at (inputs_by inputs.now))
        (Rose (F.faults files.old) (F.faults files.new)) (λ both. both) (read_work (inputs_by inputs.now).chosen) result }
    ensures complete { IfOk result (λ both. IsComplete both.1) }
{
    let settings = settings_for(alloc, inputs, files)?;
    with_graph(alloc, inputs, settings, files)
}

/// These settings, and the graph of a command's graph file.
fn with_graph<F: Files>(
    alloc: Global,
    inputs: &Inputs<'_>,
    settings: MapSettings,
    files: &mut F,
) -> Result<(MapSettings, Imported), Refusal>
    ensures follows { Follows (F.told files.old) (input_at (inputs_by inputs.now))
        (Rose (F.faults files.old) (F.faults files.new)) (λ both. both) (with_graph settings) result }
    ensures complete { IfOk result (λ both. IsComplete both.1) }
    ensures later { F.faults files.old ≤ F.faults files.new }
{
    let read = graph_file(alloc, inputs, files)?;
    Ok((settings, read))
}

/// The graph of a command's graph file, which has to be there.
fn graph_file<F: Files>(
    alloc: Global,
    inputs: &Inputs<'_>,
    files: &mut F,
) -> Result<Imported, Refusal>
    ensures follows { Follows (F.told files.old) (input_at (inputs_by inputs.now))
        (Rose (F.faults files.old) (F.faults files.new)) (λ read. read) graph_work result }
    ensures complete { IfOk result IsComplete }
    ensures later { F.faults files.old ≤ F.faults files.new }
{
    let bytes = read_file(alloc, inputs, Input::Graph, files)?;
    graph_in(alloc, bytes)
}

/// The graph that the bytes of a file make; it has to be there.
fn graph_in(alloc: Global, bytes: Option<Vec<u8>>) -> Result<Imported, Refusal>
    ensures given { Gives (λ read. read) result (graph_in (option_map (λ v. v.items) bytes)) }
    ensures complete { IfOk result IsComplete }
{
    let Some(bytes) = bytes else {
        return Err(Refusal::BadGraph(GraphWhy::Missing));
    };
    Ok(read_graph(alloc, bytes.as_slice())?)
}

/// The map of a graph that was read and its certificate, or why there is none.
#[tactic(auto, using(crate::proofs::ImportLemmas::each_listed))]
fn map_of<L: Ledger>(
    alloc: Global,
    both: &(MapSettings, Imported),
    map_files: &MapFiles<'_>,
    steps: &mut Steps<L>,
) -> Result<Sequence<Output>, Refusal>
    requires { IsComplete both.now.1 }
    ensures given { Gives (λ outputs. outputs) result (map_at (paths_by map_files.now)
        (made_on (told_by both.now.1.names both.now.1.importance) both.now.0.settings both.now.0.method both.now.1.graph)) }
    ensures made { IfOk result (λ outputs. (made : MapBytes)
        × (made_on (told_by both.now.1.names both.now.1.importance) both.now.0.settings both.now.0.method both.now.1.graph ≡ Ok made)
        × IsMadeOn (told_by both.now.1.names both.now.1.importance) both.now.0.settings both.now.0.method.claim both.now.1.graph made
        × (outputs ≡ map_outputs (paths_by map_files.now) made)) }
    ensures steps { steps.new ≤ steps.old + left_on [] both.now.1.importance both.now.0.settings both.now.0.method both.now.1.graph }
{
    let mut kept = Kept::none(alloc);
    let (settings, read) = both;
    let made = make_from(
        alloc,
        &read.graph,
        &read.names,
        read.importance.as_slice(),
        &settings.settings,
        &settings.method,
        &mut kept,
        steps,
    )?;
    Ok(write_map(alloc, map_files, made)?)
}
