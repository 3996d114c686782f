//! The drawing that was made last.

ghost use Rattle.std.specs.Prelude.{◌≡◌, length, true, IsTrue, IfOk, IfErr, IfSome, Ok};
ghost use Rattle.map_method.specs.Methods.{IsSpread};
ghost use Rattle.octi_grid.specs.Legal.{legal};
ghost use Rattle.grid_board.specs.Points.{are_near};
ghost use Rattle.drawing_weights.specs.Drawn.{IsDrawn};
ghost use Rattle.segment_router.specs.Routing.{HasCause};
ghost use Rattle.kept_walks.specs.Drawings.{drawing_outcome, straightened_walks, AreDrawn};

use crate::copies::{copy_of_drawing, copy_of_graph};
use crate::same_graphs::are_same_graphs;
use crate::straightening::straighten;
use graph_core::LineGraph;
use map_base::NoMemory;
use map_method::DrawingPlan;
use octi_grid::Drawing;
use segment_router::{RouteFault, route};
use start_positions::side_over;
use std::alloc::Global;
use std::marker::Model;

/// A drawing, and the line graph that it is of. Contracts see it as the walks.
#[derive(Drop)]
struct DrawnGraph {
    graph: LineGraph,
    plan: DrawingPlan,
    drawing: Drawing,
}

impl Model for DrawnGraph {
    ghost use Rattle.std.specs.Prelude.{List};
    ghost use Rattle.octi_grid.specs.Walks.{PlainWalk};
    ghost use Rattle.kept_walks.specs.Drawings.{AreDrawn};

    ghost Value = { List PlainWalk };

    ghost view = { λ r. r.drawing.walks };

    ghost invariant = { λ r. AreDrawn r.graph r.plan r.drawing.walks };
}

impl DrawnGraph {
    /// The drawing, if it is that of this line graph.
    fn drawing_for(
        &self,
        alloc: Global,
        graph: &LineGraph,
        plan: DrawingPlan,
    ) -> Result<Option<Drawing>, NoMemory>
        ensures { IfOk result (λ found. IfSome found (λ d. AreDrawn graph.now plan d.walks)) }
    {
        if !are_same_plans(self.plan, plan) {
            return Ok(None);
        }
        if !are_same_graphs(&self.graph, graph) {
            return Ok(None);
        }
        Ok(Some(copy_of_drawing(alloc, &self.drawing)?))
    }
}

/// Whether two plans are one.
fn are_same_plans(some: DrawingPlan, other: DrawingPlan) -> bool
    ensures { IsTrue result → some ≡ other }
{
    some == other
}

/// The drawing that was made last, if it is kept. What is drawn is the same whatever is kept.
#[derive(Drop)]
pub struct KeptWalks {
    keeps: bool,
    last: Option<DrawnGraph>,
}

impl KeptWalks {
    /// Holds none yet, and keeps the next one.
    pub fn none() -> KeptWalks {
        KeptWalks {
            keeps: true,
            last: None,
        }
    }

    /// Holds none, and keeps none: for a graph that is drawn once.
    pub fn never() -> KeptWalks {
        KeptWalks {
            keeps: false,
            last: None,
        }
    }

    /// The drawing of a line graph by a plan: its routes, as `route` of segment_router gives them, straightened. That which was
    /// made last is taken, where the line graph and the plan are the same.
    pub fn draw(
        &mut self,
        alloc: Global,
        graph: &LineGraph,
        plan: DrawingPlan,
    ) -> Result<Drawing, RouteFault>
        requires { IsSpread plan.spread }
        ensures drawing { IfOk result (λ d. drawing_outcome graph.now plan ≡ Ok d.walks) }
        ensures cause { IfErr result (λ fault. HasCause (drawing_outcome graph.now plan) fault) }
        ensures legal { IfOk result (λ d. legal graph.now d.walks ≡ true) }
        ensures each { IfOk result (λ d. length d.walks ≡ length graph.now.ends) }
        ensures near { IfOk result (λ d. are_near 1820 d.walks ≡ true) }
    {
        if let Some(drawing) = self.find(alloc, graph, plan)? {
            return Ok(drawing);
        }
        let drawing = drawn(alloc, graph, plan)?;
        if self.keeps {
            self.keep(alloc, graph, plan, &drawing)?;
        }
        Ok(drawing)
    }

    /// The drawing that is held, if it is that of this line graph.
    fn find(
        &self,
        alloc: Global,
        graph: &LineGraph,
        plan: DrawingPlan,
    ) -> Result<Option<Drawing>, NoMemory>
        ensures { IfOk result (λ found. IfSome found (λ d. AreDrawn graph.now plan d.walks)) }
    {
        match &self.last {
            Some(last) => last.drawing_for(alloc, graph, plan),
            None => Ok(None),
        }
    }

    /// Keeps the drawing of a line graph.
    fn keep(
        &mut self,
        alloc: Global,
        graph: &LineGraph,
        plan: DrawingPlan,
        drawing: &Drawing,
    ) -> Result<(), NoMemory>
        requires { AreDrawn graph.now plan drawing.now.walks }
    {
        let graph = copy_of_graph(alloc, graph)?;
        let drawing = copy_of_drawing(alloc, drawing)?;
        self.last = Some(DrawnGraph {
            graph,
            plan,
            drawing,
        });
        Ok(())
    }
}

/// The drawing of a line graph, whatever is kept.
fn drawn(alloc: Global, graph: &LineGraph, plan: DrawingPlan) -> Result<Drawing, RouteFault>
    requires { IsSpread plan.spread }
    ensures drawn { IfOk result (λ d. AreDrawn graph.now plan d.walks) }
    ensures cause { IfErr result (λ fault. HasCause (drawing_outcome graph.now plan) fault) }
{
    let routes = route(alloc, graph, plan)?;
    let drawing = straightened(alloc, graph, routes, plan.cell, plan.straight)?;
    Ok(drawing)
}

/// Routes, straightened.
fn straightened(
    alloc: Global,
    graph: &LineGraph,
    routes: Drawing,
    cell: u32,
    straight: u32,
) -> Result<Drawing, NoMemory>
    requires drawn { IsDrawn graph.now routes.walks }
    requires near { are_near 1800 routes.walks ≡ true }
    ensures walks { IfOk result (λ d. d.walks ≡ straightened_walks graph.now cell straight routes.walks) }
    ensures legal { IfOk result (λ d. legal graph.now d.walks ≡ true) }
    ensures each { IfOk result (λ d. length d.walks ≡ length graph.now.ends) }
    ensures near { IfOk result (λ d. are_near 1820 d.walks ≡ true) }
{
    if straight == 0 {
        return Ok(routes);
    }
    let side = side_over(graph, cell);
    let searched = straighten(alloc, graph, routes, side, straight)?;
    Ok(searched.drawing)
}
