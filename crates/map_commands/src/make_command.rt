//! The command `make`.

ghost use Rattle.std.specs.Prelude.{Ok, ◌≡◌, ◌≤◌, ◌+◌, [], IfOk};
ghost use Rattle.files_door.specs.Fault.{Rose};
ghost use Rattle.graph_maps.specs.Making.{MapBytes};
ghost use Rattle.map_engine.specs.Making.{make_outcome};
ghost use Rattle.map_engine.specs.Keeping.{branches_left};
ghost use Rattle.map_engine.specs.Promises.{IsMade};
ghost use Rattle.command_paths.specs.Paths.{new_paths_by};
ghost use Rattle.command_inputs.specs.Inputs.{input_at, inputs_by};
ghost use Rattle.map_commands.specs.MapWorks.{made_at, make_work, new_outputs, poster_due};
ghost use Rattle.run_status.specs.Following.{Follows, Gives};
ghost use Rattle.map_commands.specs.Promises.{AreOfMap, SearchesParts};

use crate::outputs::write_new;
use command_inputs::{Inputs, Loaded, load};
use command_paths::NewFiles;
use command_run::Output;
use files_door::Files;
use line_graph::build;
use map_base::{Sequence, Stage, Steps};
use map_engine::{Kept, make_on_graph, what_is_made_has_its_poster};
use run_status::Refusal;
use std::alloc::Global;
use std::sync::ledger::Ledger;

/// Makes the map of a command's feed, its certificate, and the page of its poster where one is named.
#[inline(never)]
pub fn make_map<F: Files, L: Ledger>(
    alloc: Global,
    inputs: &Inputs<'_>,
    new_files: &NewFiles<'_>,
    files: &mut F,
    steps: &mut Steps<L>,
) -> Result<Sequence<Output>, Refusal>
    ensures follows { Follows (F.told files.old) (input_at (inputs_by inputs.now))
        (Rose (F.faults files.old) (F.faults files.new)) (λ outputs. outputs) (make_work (inputs_by inputs.now).chosen (new_paths_by new_files.now)) result }
    ensures keeps { IfOk result (AreOfMap (F.told files.old) (inputs_by inputs.now) (new_paths_by new_files.now)) }
    ensures steps { SearchesParts (F.told files.old) (inputs_by inputs.now) steps.old steps.new }
{
    what_is_made_has_its_poster();
    steps.enter(Stage::Reading);
    let loaded = load(alloc, inputs, files)?;
    map_of(alloc, &loaded, new_files, steps)
}

/// The map of what is loaded and its certificate, or why there is none.
fn map_of<L: Ledger>(
    alloc: Global,
    loaded: &Loaded,
    new_files: &NewFiles<'_>,
    steps: &mut Steps<L>,
) -> Result<Sequence<Output>, Refusal>
    ensures given { Gives (λ outputs. outputs) result
        (made_at (new_paths_by new_files.now) loaded.now (make_outcome loaded.now.tables loaded.now.settings loaded.now.method)) }
    ensures made { IfOk result (λ outputs. (made : MapBytes)
        × (make_outcome loaded.now.tables loaded.now.settings loaded.now.method ≡ Ok made) × IsMade loaded.now.tables loaded.now.settings loaded.now.method.claim made
        × (outputs ≡ new_outputs (new_paths_by new_files.now) (poster_due loaded.now made) made)) }
    ensures steps { steps.new ≤ steps.old + branches_left [] loaded.now.tables loaded.now.settings loaded.now.method }
{
    steps.enter(Stage::LineGraph);
    let (tables, settings) = (&loaded.tables, &loaded.settings);
    let graph = build(alloc, tables, settings)?;
    let mut kept = Kept::none(alloc);
    let made = make_on_graph(
        alloc,
        tables,
        settings,
        &loaded.method,
        &graph,
        &mut kept,
        steps,
    )?;
    Ok(write_new(alloc, loaded, &graph, new_files, made)?)
}
