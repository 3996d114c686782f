//! Where a drawing puts nodes.

ghost use Rattle.std.specs.Prelude.{◌≡◌, ◌<◌, length, if◌then◌else◌, IfOk};
ghost use Rattle.graph_core.specs.Consistent.{IsConsistent};
ghost use Rattle.octi_grid.specs.Walks.{end_point};
ghost use Rattle.drawing_weights.specs.Drawn.{points_all, IsDrawn};
ghost use Rattle.drawing_weights.specs.Weights.{point_of};

use graph_core::LineGraph;
use map_base::{NoMemory, NodeId};
use octi_grid::{GridPoint, Walk, end_of};
use std::alloc::Global;

/// Where the walks of a legal drawing put a node.
pub fn point_of(graph: &LineGraph, walks: &[Walk], n: NodeId) -> GridPoint
    requires graph { IsConsistent graph.now }
    requires drawn { IsDrawn graph.now walks.now }
    requires node { n.0 < length graph.now.kinds }
    ensures { result ≡ point_of graph.now walks.now n.0 }
{
    let seg = graph.round(n)[0];
    end_at(&walks[seg.0 as usize], graph.ends(seg).0 == n)
}

/// The start of a walk, or its end.
fn end_at(walk: &Walk, is_start: bool) -> GridPoint
    ensures { result ≡ (if is_start then walk.now.start else end_point walk.now) }
{
    if is_start { walk.start() } else { end_of(walk) }
}

/// Where the walks of a legal drawing put each node.
pub fn points_of(
    alloc: Global,
    graph: &LineGraph,
    walks: &[Walk],
) -> Result<Vec<GridPoint>, NoMemory>
    requires graph { IsConsistent graph.now }
    requires drawn { IsDrawn graph.now walks.now }
    ensures { IfOk result (λ points. points.items ≡ points_all graph.now walks.now) }
{
    let mut points = Vec::new(alloc);
    for n in 0..graph.nodes() {
        points.push(point_of(graph, walks, NodeId(n)))?;
    }
    Ok(points)
}
