//! The map of a line graph and its certificate.

ghost use Rattle.std.specs.Prelude.{◌≡◌, ◌≤◌, ◌<◌, ◌+◌, ◌^◌, length, true, All, Contains, IfOk};
ghost use Rattle.map_base.specs.Settings.{IsImportance};
ghost use Rattle.grid_board.specs.Points.{are_near};
ghost use Rattle.order_model.specs.Costs.{AreOrders};
ghost use Rattle.graph_maps.specs.Subjects.{told_by, AreListed};
ghost use Rattle.graph_maps.specs.Making.{bytes_of, made_on, plan_of, Gives};
ghost use Rattle.graph_maps.specs.Improving.{improved_on, improved_bytes, IsImprovedOn};
ghost use Rattle.graph_maps.specs.Keeping.{finished_on, left_on, HoldsFinished};
ghost use Rattle.graph_maps.specs.Stages.{map_by, IsDrawing, IsWritten};
ghost use Rattle.graph_maps.specs.Promises.{IsMadeOn};

use crate::best_orders::{BestOrders, best_orders};
use crate::drawing::drawn_map;
use crate::drawn_lines::{drawn_lines, line_total, weighty_lines};
use crate::improvement::ImprovedMap;
use crate::made::Made;
use crate::moving::moved;
use cert_file::{Certificate, write_certificate};
use graph_core::LineGraph;
use kept_trees::{Kept, SearchPlan};
use kept_walks::KeptWalks;
use map_base::{NoMemory, Sequence, Settings, Stage, Steps};
use map_faults::MakeFault;
use map_method::Method;
use octi_grid::Drawing;
use std::alloc::Global;
use std::sync::ledger::Ledger;
use svg_writer::{Names, picture};

/// The map of a line graph and its certificate, by the names of its stations and lines and a number from 1 to 16 for
/// each line. The first cause why there is none is answered: a limit of the grid's cells, a segment without a walk, a
/// limit of terms, or the first part of the untangled problem that is over the limit of places or whose search meets
/// more branch nodes than the budget; where a bound is claimed, a part that is searched by dual prices is not refused
/// for its budget. What `kept` holds changes none of this. Of the settings the weights, the cell and the budget count.
pub fn make_from<L: Ledger>(
    alloc: Global,
    graph: &LineGraph,
    names: &Names,
    importance: &[u32],
    settings: &Settings,
    method: &Method,
    kept: &mut Kept,
    steps: &mut Steps<L>,
) -> Result<Made, MakeFault>
    requires numbers { All IsImportance importance.now }
    requires lines { AreListed importance.now graph.now }
    requires few { length importance.now < 2 ^ 32 }
    ensures outcome { Gives bytes_of result
        (made_on (told_by names.now importance.now) settings.now method.now graph.now) }

    // The map shows exactly the line graph, in a legal drawing; no line orders of it cost less than the bound that its
    // certificate proves, which is the cost where best orders are claimed; and the check says yes to the two.
    ensures made { IfOk result (λ made. IsMadeOn
        (told_by names.now importance.now) settings.now method.now.claim graph.now (bytes_of made)) }

    // What is held stays, each part that was finished is held, and no part that is held is searched again.
    ensures kept { All (Contains kept.new) kept.old }
    ensures finished { HoldsFinished result (finished_on importance.now settings.now method.now graph.now) kept.new }
    ensures steps { steps.new ≤ steps.old + left_on kept.old importance.now settings.now method.now graph.now }
{
    let mut last = KeptWalks::never();
    let improved = make_improved_from(
        alloc, graph, names, importance, settings, method, 0, &mut last, kept, steps,
    )?;
    Ok(improved.map)
}

/// The map that `make_from` makes, after at most so many moves more on its drawing, with what these made of it. The
/// line orders stay, and so does their proof. A drawing that `last` holds is taken again where nothing changed on which
/// it depends; that changes none of what is made. There is no map exactly where `make_from` makes none, for the same
/// cause.
pub fn make_improved_from<L: Ledger>(
    alloc: Global,
    graph: &LineGraph,
    names: &Names,
    importance: &[u32],
    settings: &Settings,
    method: &Method,
    moves: u32,
    last: &mut KeptWalks,
    kept: &mut Kept,
    steps: &mut Steps<L>,
) -> Result<ImprovedMap, MakeFault>
    requires numbers { All IsImportance importance.now }
    requires lines { AreListed importance.now graph.now }
    requires few { length importance.now < 2 ^ 32 }
    ensures outcome { Gives improved_bytes result
        (improved_on (told_by names.now importance.now) settings.now method.now moves graph.now) }

    // The map keeps what `make_from` promises. Its drawing is no heavier than before these moves, and all of them were
    // made, or none makes it lighter.
    ensures improved { IfOk result (λ improved. IsImprovedOn
        (told_by names.now importance.now) settings.now method.now graph.now moves (improved_bytes improved)) }

    // What is held stays, each part that was finished is held, and no part that is held is searched again.
    ensures kept { All (Contains kept.new) kept.old }
    ensures finished { HoldsFinished result (finished_on importance.now settings.now method.now graph.now) kept.new }
    ensures steps { steps.new ≤ steps.old + left_on kept.old importance.now settings.now method.now graph.now }
{
    steps.enter(Stage::Drawing);
    let (drawing, problem) = drawn_map(alloc, graph, importance, settings, method, last)?;
    let best = best_orders(alloc, problem, plan_of(settings, method), kept, steps)?;
    Ok(moved_map(
        alloc,
        graph,
        names,
        importance,
        drawing,
        best,
        method.moves,
        moves,
    )?)
}

/// How the orders of parts are searched for.
fn plan_of(settings: &Settings, method: &Method) -> SearchPlan
    ensures plan { result ≡ plan_of settings.now method.now }
    ensures budget { result.budget ≤ 100000 }
{
    SearchPlan {
        search: method.search,
        claim: method.claim,
        budget: settings.budget,
    }
}

/// The map of a drawing and its certificate after so many moves and then so many more, and what the last ones made of
/// it.
fn moved_map(
    alloc: Global,
    graph: &LineGraph,
    names: &Names,
    importance: &[u32],
    drawing: Drawing,
    best: BestOrders,
    first: u32,
    moves: u32,
) -> Result<ImprovedMap, NoMemory>
    requires drawing { IsDrawing graph.now drawing.walks }
    requires near { are_near 1820 drawing.walks ≡ true }
    requires lines { AreListed importance.now graph.now }
    requires few { length importance.now < 2 ^ 32 }
    requires orders { AreOrders graph.now.lines best.orders.lists }
    ensures { IfOk result (IsWritten (told_by names.now importance.now) graph.now drawing.walks best first moves) }
{
    let (once, _earlier) = moved(alloc, graph, drawing, first)?;
    let (twice, improvement) = moved(alloc, graph, once, moves)?;
    let map = written(alloc, graph, names, importance, twice, best)?;
    Ok(ImprovedMap { map, improvement })
}

/// The map of a drawing and its certificate, by the line orders that were found.
fn written(
    alloc: Global,
    graph: &LineGraph,
    names: &Names,
    importance: &[u32],
    drawing: Drawing,
    best: BestOrders,
) -> Result<Made, NoMemory>
    requires lines { AreListed importance.now graph.now }
    requires few { length importance.now < 2 ^ 32 }
    requires orders { AreOrders graph.now.lines best.orders.lists }
    ensures { IfOk result (λ made. bytes_of made
        ≡ map_by (told_by names.now importance.now) graph.now drawing.walks best) }
{
    let nodes = graph.nodes();
    let svg = picture(alloc, graph, names, &drawing, &best.orders)?;
    let lines = drawn_lines(alloc, graph, line_total(importance))?;
    let weighty = weighty_lines(alloc, lines.as_slice(), importance)?;
    let certificate = Certificate {
        nodes,
        segs: graph.segs(),
        lines: lines.len() as u32,
        importance: Sequence::of(weighty),
        walks: drawing.walks,
        cost: best.cost,
        orders: best.orders,
        proof: best.proof,
    };
    let text = write_certificate(alloc, &certificate)?;
    Ok(Made {
        svg,
        certificate: text,
    })
}
