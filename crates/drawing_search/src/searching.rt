//! Passes over groups of attempts.

ghost use Rattle.std.specs.Prelude.{◌≡◌, ◌≤◌, ◌^◌, length, All, IfOk, true};
ghost use Rattle.std.specs.List.{list_all};
ghost use Rattle.graph_core.specs.Consistent.{IsConsistent};
ghost use Rattle.octi_grid.specs.Legal.{is_even};
ghost use Rattle.octi_grid.specs.Walks.{points_of as walk_points, PlainWalk};
ghost use Rattle.grid_board.specs.Boards.{contains, AreBounds};
ghost use Rattle.grid_board.specs.Points.{are_near};
ghost use Rattle.drawing_weights.specs.Drawn.{points_all, IsDrawn};
ghost use Rattle.drawing_weights.specs.Scales.{scale_of};
ghost use Rattle.run_laying.specs.Runs.{IsFitting};
ghost use Rattle.run_laying.specs.Sketches.{IsLegalSketch};
ghost use Rattle.drawing_search.specs.declared.group.Group.{Group};
ghost use Rattle.drawing_search.specs.Changes.{AreApart};
ghost use Rattle.drawing_search.specs.Gains.{sketch_weight, IsField};
ghost use Rattle.drawing_search.specs.Searched.{attempts_of, IsSearched, IsSearchedOn};
ghost use Rattle.drawing_search.specs.Shown.{whole_sketch};
ghost use Rattle.drawing_search.specs.Trying.{walks_of, IsWhole};

use crate::gains::Field;
use crate::group::Group;
use crate::pairs::Pairs;
use crate::sketch::Sketch;
use crate::trying::Search;
use drawing_weights::{Weighing, bounds_past, points_of};
use graph_core::LineGraph;
use grid_board::Bounds;
use map_base::{NoMemory, NodeId, SegId, Sequence};
use octi_grid::{Drawing, GridPoint, Walk};
use std::alloc::Global;

/// A drawing after a search: how many attempts were made, and what the drawing weighed before them and weighs now.
#[derive(Debug, Drop)]
pub struct Searched {
    pub drawing: Drawing,
    pub made: u32,
    pub before: u64,
    pub after: u64,
}

/// The drawing after passes over groups of attempts: each attempt that makes the drawing lighter is made, at most
/// `at_once` of them in a pass, and `most` in all; passes follow each other until one makes nothing. The board reaches
/// `margin` steps past the grid points of the drawing.
pub fn search(
    alloc: Global,
    graph: &LineGraph,
    drawing: Drawing,
    by: Weighing<'_>,
    margin: u32,
    groups: &[Group],
    at_once: u32,
    most: u32,
) -> Result<Searched, NoMemory>
    requires drawn { IsDrawn graph.now drawing.walks }
    requires near { are_near 1900 drawing.walks ≡ true }
    requires margin { margin ≤ 20 }
    requires held { length by.held.now ≡ length graph.now.kinds }
    requires small { by.turns ≤ 100 }
    requires overs { by.overs ≤ 100 }
    requires aparts { by.aparts ≤ 100 }
    requires fitting { All (IsFitting graph.now) (attempts_of groups.now) }
    requires apart { All (λ (g : Group). AreApart g.nodes) groups.now }
    requires lengths { All (λ (g : Group). g.lengths ≤ 4) groups.now }
    ensures { IfOk result (IsSearched graph.now (scale_of by.entry) margin (attempts_of groups.now) at_once most drawing.walks) }
{
    let _nodes = graph.nodes();
    let walks = drawing.walks.into_vec();
    let first = points_of(alloc, graph, &walks)?;
    let pairs = Pairs::of(alloc, graph)?;
    let field = Field {
        graph,
        pairs: &pairs,
        by,
        first: &first,
    };
    let bounds = bounds_past(alloc, margin, &walks)?;
    let sketch = sketch_of(alloc, graph, bounds, &first, walks)?;
    passes(alloc, field, sketch, groups, at_once, most)
}

/// Passes over groups of attempts, from a whole drawing on.
fn passes(
    alloc: Global,
    field: Field<'_>,
    sketch: Sketch,
    groups: &[Group],
    at_once: u32,
    most: u32,
) -> Result<Searched, NoMemory>
    requires field { IsField field }
    requires first { field.first.now ≡ points_all field.graph.now (walks_of sketch) }
    requires legal { IsLegalSketch field.graph.now sketch }
    requires whole { IsWhole sketch }
    requires fitting { All (IsFitting field.graph.now) (attempts_of groups.now) }
    requires apart { All (λ (g : Group). AreApart g.nodes) groups.now }
    requires lengths { All (λ (g : Group). g.lengths ≤ 4) groups.now }
    ensures { IfOk result (IsSearchedOn field.entry.graph.now (scale_of field.entry.by) sketch.bounds (attempts_of groups.now) at_once most (walks_of sketch)) }
{
    let before = weight_of(field, &sketch);
    let mut search = Search {
        sketch,
        weight: before,
        made: 0,
    };
    while search.made < most {
        let made = search.made;
        let raised = made.saturating_add(at_once);
        let limit = most.min(raised);
        search.try_groups(alloc, field, groups, limit)?;
        if search.made == made {
            return outcome_of(alloc, search, before);
        }
    }
    outcome_of(alloc, search, before)
}

/// What a search came to.
fn outcome_of(alloc: Global, search: Search, before: u64) -> Result<Searched, NoMemory>
    ensures drawing { IfOk result (λ s. s.drawing.walks ≡ walks_of search.sketch) }
    ensures made { IfOk result (λ s. s.made ≡ search.made) }
    ensures before { IfOk result (λ s. s.before ≡ before) }
    ensures after { IfOk result (λ s. s.after ≡ search.weight) }
{
    let made = search.made;
    let after = search.weight;
    let walks = search.sketch.into_walks(alloc)?;
    Ok(Searched {
        drawing: Drawing {
            walks: Sequence::of(walks),
        },
        made,
        before,
        after,
    })
}

/// A drawing on its board.
fn sketch_of(
    alloc: Global,
    graph: &LineGraph,
    bounds: Bounds,
    points: &[GridPoint],
    walks: Vec<Walk>,
) -> Result<Sketch, NoMemory>
    requires graph { IsConsistent graph.now }
    requires bounds { AreBounds bounds }
    requires points { length points.now ≡ length graph.now.kinds }
    requires walks { length walks.items ≡ length graph.now.ends }
    requires inside { list_all (contains bounds) points.now ≡ true }
    requires even { list_all is_even points.now ≡ true }
    requires within { list_all (λ (w : PlainWalk). list_all (contains bounds) (walk_points w)) walks.items ≡ true }
    ensures { IfOk result (λ sketch. sketch ≡ whole_sketch bounds points.now walks.items) }
{
    let mut sketch = Sketch::empty(alloc, bounds, points, graph.segs())?;
    for n in 0..graph.nodes() {
        sketch.stand(NodeId(n), points[n as usize]);
    }
    let mut s = 0;
    for walk in walks {
        sketch.put_walk(SegId(s), walk);
        s += 1;
    }
    Ok(sketch)
}

/// What a whole drawing weighs.
fn weight_of(field: Field<'_>, sketch: &Sketch) -> u64
    requires field { IsField field }
    requires legal { IsLegalSketch field.graph.now sketch.now }
    requires whole { IsWhole sketch.now }
    ensures weight { result ≡ sketch_weight (scale_of field.entry.by) field.entry.graph.now field.entry.first.now sketch.now }
    ensures small { result ≤ 2 ^ 57 }
{
    let mut total = 0;
    for s in 0..field.graph.segs() {
        total += field.walk_at(sketch, SegId(s));
    }
    for n in 0..field.graph.nodes() {
        total += field.node_weight(sketch, NodeId(n));
    }
    total
}
