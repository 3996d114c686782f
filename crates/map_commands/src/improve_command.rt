//! The command `improve`.

ghost use Rattle.std.specs.Prelude.{Ok, ◌≡◌, ◌≤◌, ◌+◌, [], IfOk};
ghost use Rattle.files_door.specs.Fault.{Rose};
ghost use Rattle.graph_maps.specs.Improving.{ImprovedBytes};
ghost use Rattle.map_engine.specs.Improving.{improve_outcome, IsImprovedMap};
ghost use Rattle.map_engine.specs.Keeping.{branches_left};
ghost use Rattle.command_paths.specs.Paths.{paths_by};
ghost use Rattle.command_inputs.specs.Inputs.{input_at, inputs_by};
ghost use Rattle.run_status.specs.Following.{Follows, Gives};
ghost use Rattle.map_commands.specs.Promises.{SearchesParts};
ghost use Rattle.map_commands.specs.ImproveWorks.{improve_work, improved_at, improved_outputs, AreOfImproved};

use crate::improve_outputs::write_improved;
use command_inputs::{Inputs, Loaded, load};
use command_paths::MapFiles;
use command_run::Output;
use files_door::Files;
use map_base::{Sequence, Stage, Steps};
use map_engine::{Kept, LastDrawing, make_improved};
use run_status::Refusal;
use std::alloc::Global;
use std::sync::ledger::Ledger;

/// Makes the map of a command's feed, and its certificate, makes at most so many moves more on its drawing, and tells what
/// they made of it.
#[inline(never)]
pub fn improve_map<F: Files, L: Ledger>(
    alloc: Global,
    inputs: &Inputs<'_>,
    map_files: &MapFiles<'_>,
    moves: u32,
    files: &mut F,
    steps: &mut Steps<L>,
) -> Result<Sequence<Output>, Refusal>
    ensures follows { Follows (F.told files.old) (input_at (inputs_by inputs.now))
        (Rose (F.faults files.old) (F.faults files.new)) (λ outputs. outputs) (improve_work (inputs_by inputs.now).chosen (paths_by map_files.now) moves) result }
    ensures keeps { IfOk result (AreOfImproved (F.told files.old) (inputs_by inputs.now) (paths_by map_files.now) moves) }
    ensures steps { SearchesParts (F.told files.old) (inputs_by inputs.now) steps.old steps.new }
{
    steps.enter(Stage::Reading);
    let loaded = load(alloc, inputs, files)?;
    improved_of(alloc, &loaded, map_files, moves, steps)
}

/// The improved map of what is loaded, its certificate and the line that tells of the moves, or why there is none.
fn improved_of<L: Ledger>(
    alloc: Global,
    loaded: &Loaded,
    map_files: &MapFiles<'_>,
    moves: u32,
    steps: &mut Steps<L>,
) -> Result<Sequence<Output>, Refusal>
    ensures given { Gives (λ outputs. outputs) result
        (improved_at (paths_by map_files.now) (improve_outcome loaded.now.tables loaded.now.settings loaded.now.method moves)) }
    ensures improved { IfOk result (λ outputs. (improved : ImprovedBytes)
        × (improve_outcome loaded.now.tables loaded.now.settings loaded.now.method moves ≡ Ok improved)
        × IsImprovedMap loaded.now.tables loaded.now.settings loaded.now.method moves improved
        × (outputs ≡ improved_outputs (paths_by map_files.now) improved)) }
    ensures steps { steps.new ≤ steps.old + branches_left [] loaded.now.tables loaded.now.settings loaded.now.method }
{
    let mut kept = Kept::none(alloc);
    let improved = make_improved(
        alloc,
        &loaded.tables,
        &loaded.settings,
        &loaded.method,
        moves,
        &mut LastDrawing::never(),
        &mut kept,
        steps,
    )?;
    Ok(write_improved(alloc, map_files, improved)?)
}
