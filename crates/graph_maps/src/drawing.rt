//! From a line graph to its drawing and the problem of its line orders.

ghost use Rattle.std.specs.Prelude.{◌≡◌, true, All, IfOk};
ghost use Rattle.map_base.specs.Settings.{IsImportance};
ghost use Rattle.order_model.specs.Problems.{IsProblem};
ghost use Rattle.octi_grid.specs.Walks.{IsWalk};
ghost use Rattle.grid_board.specs.Points.{are_near};
ghost use Rattle.graph_maps.specs.Subjects.{AreListed};
ghost use Rattle.map_method.specs.Methods.{IsSpread};
ghost use Rattle.graph_maps.specs.Problems.{drawing_plan, drawn_on, problem_of};
ghost use Rattle.graph_maps.specs.Making.{Gives};
ghost use Rattle.graph_maps.specs.Stages.{drawn_of, IsDrawing};

use graph_core::LineGraph;
use kept_walks::KeptWalks;
use map_base::Settings;
use map_faults::MakeFault;
use map_method::{DrawingPlan, Method};
use octi_grid::{Drawing, Walk, illegal_drawings_have_a_first_walk};
use order_model::Problem;
use order_terms::terms_of;
use std::alloc::Global;

/// The drawing of a line graph, and the problem of its line orders: what comes first of a limit of the grid's cells, a
/// segment without a walk, and a limit of terms, is answered. What was drawn last is taken again where it is the same.
pub(crate) fn drawn_map(
    alloc: Global,
    graph: &LineGraph,
    importance: &[u32],
    settings: &Settings,
    method: &Method,
    last: &mut KeptWalks,
) -> Result<(Drawing, Problem), MakeFault>
    requires numbers { All IsImportance importance.now }
    requires lines { AreListed importance.now graph.now }
    ensures outcome { Gives (drawn_of graph.now) result (drawn_on importance.now settings.now method.now graph.now) }
    ensures drawing { IfOk result (λ d. IsDrawing graph.now d.0.walks) }
    ensures near { IfOk result (λ d. are_near 1820 d.0.walks ≡ true) }
    ensures problem { IfOk result (λ d. d.1 ≡ problem_of importance.now settings.now graph.now) }
    ensures problem_fits { IfOk result (λ d. IsProblem d.1) }
{
    let _nodes = graph.nodes();
    let drawing = last.draw(alloc, graph, drawing_plan(settings, method))?;
    are_walks(drawing.walks.as_slice());
    illegal_drawings_have_a_first_walk();
    let problem = terms_of(alloc, graph, &settings.weights, importance)?;
    Ok((drawing, problem))
}

/// How a line graph is drawn.
fn drawing_plan(settings: &Settings, method: &Method) -> DrawingPlan
    ensures plan { result ≡ drawing_plan settings.now method.now }
    ensures spread { IsSpread result.spread }
{
    DrawingPlan {
        cell: settings.cell,
        spread: method.spread,
        coarsest: method.coarsest,
        finest: method.finest,
        straight: method.straight,
    }
}

/// What the type of walks keeps, of each of these: it has a step, and its points lie within 10,000 either way.
pub(crate) fn are_walks(walks: &[Walk])
    ensures { All IsWalk walks.now }
{
    for walk in walks {
        let _runs = walk.runs();
    }
}
