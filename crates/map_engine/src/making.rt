//! The map of a feed and its certificate.

ghost use Rattle.std.specs.Prelude.{◌≡◌, ◌≤◌, ◌+◌, All, Contains, IfOk, Ok};
ghost use Rattle.line_graph.specs.Outcome.{graph_outcome};
ghost use Rattle.line_graph.specs.Rides.{KeepsLines};
ghost use Rattle.graph_maps.specs.Making.{bytes_of, Gives};
ghost use Rattle.graph_maps.specs.Improving.{improved_bytes};
ghost use Rattle.graph_maps.specs.Keeping.{HoldsFinished};
ghost use Rattle.map_engine.specs.Making.{make_outcome};
ghost use Rattle.map_engine.specs.Improving.{improve_outcome, IsImprovedMap};
ghost use Rattle.map_engine.specs.Keeping.{finished_parts, branches_left};
ghost use Rattle.map_engine.specs.Promises.{IsMade};

use crate::importance::line_numbers;
use crate::names::names_of;
use graph_core::LineGraph;
use graph_maps::{ImprovedMap, Made, make_improved_from};
use kept_drawing::LastDrawing;
use kept_trees::Kept;
use kept_walks::KeptWalks;
use map_base::{Settings, Stage, Steps};
use map_faults::MakeFault;
use map_method::Method;
use std::alloc::Global;
use std::sync::ledger::Ledger;
use transit_feed::Tables;

/// The map of a feed and its certificate. The first cause why there is none is answered: a limit of the line graph or
/// of the grid's cells, a segment without a walk, a limit of terms, or the first part of the untangled problem that is
/// over the limit of places or whose search meets more branch nodes than the budget; where a bound is claimed, a part
/// that is searched by dual prices is not refused for its budget. What `kept` holds changes none of this.
pub fn make<L: Ledger>(
    alloc: Global,
    tables: &Tables,
    settings: &Settings,
    method: &Method,
    kept: &mut Kept,
    steps: &mut Steps<L>,
) -> Result<Made, MakeFault>
    ensures outcome { Gives bytes_of result (make_outcome tables.now settings.now method.now) }

    // The map shows exactly the feed's line graph, in a legal drawing; no line orders of it cost less than the bound
    // that its certificate proves, which is the cost where best orders are claimed; and the check says yes to the two.
    ensures made { IfOk result (λ made. IsMade tables.now settings.now method.now.claim (bytes_of made)) }

    // What is held stays, each part that was finished is held, and no part that is held is searched again.
    ensures kept { All (Contains kept.new) kept.old }
    ensures finished { HoldsFinished result (finished_parts tables.now settings.now method.now) kept.new }
    ensures steps { steps.new ≤ steps.old + branches_left kept.old tables.now settings.now method.now }
{
    let mut last = LastDrawing::never();
    make_again(alloc, tables, settings, method, &mut last, kept, steps)
}

/// The map that `make` makes, with what `last` holds of the line graph and the drawing: it is taken again where nothing
/// changed on which it depends, and changes none of what is made.
pub fn make_again<L: Ledger>(
    alloc: Global,
    tables: &Tables,
    settings: &Settings,
    method: &Method,
    last: &mut LastDrawing,
    kept: &mut Kept,
    steps: &mut Steps<L>,
) -> Result<Made, MakeFault>
    ensures outcome { Gives bytes_of result (make_outcome tables.now settings.now method.now) }
    ensures made { IfOk result (λ made. IsMade tables.now settings.now method.now.claim (bytes_of made)) }
    ensures kept { All (Contains kept.new) kept.old }
    ensures finished { HoldsFinished result (finished_parts tables.now settings.now method.now) kept.new }
    ensures steps { steps.new ≤ steps.old + branches_left kept.old tables.now settings.now method.now }
{
    let improved = make_improved(alloc, tables, settings, method, 0, last, kept, steps)?;
    Ok(improved.map)
}

/// The map that `make_again` makes, and its certificate, after at most so many moves more on its drawing, and what they
/// made of it. The line orders stay, and so does their proof. There is no map exactly where `make` makes none, for the
/// same cause.
pub fn make_improved<L: Ledger>(
    alloc: Global,
    tables: &Tables,
    settings: &Settings,
    method: &Method,
    moves: u32,
    last: &mut LastDrawing,
    kept: &mut Kept,
    steps: &mut Steps<L>,
) -> Result<ImprovedMap, MakeFault>
    ensures outcome { Gives improved_bytes result (improve_outcome tables.now settings.now method.now moves) }

    // The map keeps what `make` promises. Its drawing is no heavier than before these moves, and all of them were made,
    // or none makes it lighter.
    ensures improved { IfOk result (λ improved. IsImprovedMap tables.now settings.now method.now moves
        (improved_bytes improved)) }
    ensures kept { All (Contains kept.new) kept.old }
    ensures finished { HoldsFinished result (finished_parts tables.now settings.now method.now) kept.new }
    ensures steps { steps.new ≤ steps.old + branches_left kept.old tables.now settings.now method.now }
{
    steps.enter(Stage::LineGraph);
    let graph = last.graph.build(alloc, tables, settings)?;
    improved_on_graph(
        alloc,
        tables,
        settings,
        method,
        moves,
        &graph,
        &mut last.walks,
        kept,
        steps,
    )
}

/// `make`, by the line graph of the tables, where that is known.
pub fn make_on_graph<L: Ledger>(
    alloc: Global,
    tables: &Tables,
    settings: &Settings,
    method: &Method,
    graph: &LineGraph,
    kept: &mut Kept,
    steps: &mut Steps<L>,
) -> Result<Made, MakeFault>
    requires graph { graph_outcome settings.now.near tables.now ≡ Ok graph.now }
    requires kept { KeepsLines settings.now.near tables.now graph.now }
    ensures outcome { Gives bytes_of result (make_outcome tables.now settings.now method.now) }
    ensures made { IfOk result (λ made. IsMade tables.now settings.now method.now.claim (bytes_of made)) }
    ensures kept { All (Contains kept.new) kept.old }
    ensures finished { HoldsFinished result (finished_parts tables.now settings.now method.now) kept.new }
    ensures steps { steps.new ≤ steps.old + branches_left kept.old tables.now settings.now method.now }
{
    let mut walks = KeptWalks::never();
    let improved = improved_on_graph(
        alloc, tables, settings, method, 0, graph, &mut walks, kept, steps,
    )?;
    Ok(improved.map)
}

/// The improved map by the line graph of the tables, over what was drawn last.
fn improved_on_graph<L: Ledger>(
    alloc: Global,
    tables: &Tables,
    settings: &Settings,
    method: &Method,
    moves: u32,
    graph: &LineGraph,
    last: &mut KeptWalks,
    kept: &mut Kept,
    steps: &mut Steps<L>,
) -> Result<ImprovedMap, MakeFault>
    requires graph { graph_outcome settings.now.near tables.now ≡ Ok graph.now }
    requires kept { KeepsLines settings.now.near tables.now graph.now }
    ensures outcome { Gives improved_bytes result (improve_outcome tables.now settings.now method.now moves) }
    ensures improved { IfOk result (λ improved. IsImprovedMap tables.now settings.now method.now moves
        (improved_bytes improved)) }
    ensures kept { All (Contains kept.new) kept.old }
    ensures finished { HoldsFinished result (finished_parts tables.now settings.now method.now) kept.new }
    ensures steps { steps.new ≤ steps.old + branches_left kept.old tables.now settings.now method.now }
{
    let names = names_of(alloc, tables)?;
    let importance = line_numbers(alloc, tables, settings, graph)?;
    make_improved_from(
        alloc,
        graph,
        &names,
        importance.as_slice(),
        settings,
        method,
        moves,
        last,
        kept,
        steps,
    )
}
