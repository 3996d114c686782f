//! The problem of a line graph.

ghost use Rattle.std.specs.Prelude.{◌≡◌, ◌<◌, ◌≤◌, length, vec_len, map, All, IfOk, IfErr};
ghost use Rattle.graph_core.specs.Consistent.{IsConsistent};
ghost use Rattle.map_base.specs.Settings.{AreLight};
ghost use Rattle.map_base.specs.Faults.{Gives};
ghost use Rattle.order_model.specs.declared.problem.ProblemParts.{ProblemParts};
ghost use Rattle.order_terms.specs.Terms.{graph_terms, HaveImportance};
ghost use Rattle.order_terms.specs.Limits.{graph_problem, IsAbove};

use crate::found::MOST_TERMS;
use crate::node_terms::push_terms_at;
use crate::round_places::no_places;
use graph_core::LineGraph;
use map_base::{LimitFault, LineId, NoMemory, NodeId, SegId, Sequence, Weights};
use order_model::{Problem, ProblemParts, Term};
use std::alloc::Global;

/// The problem of a line graph, under the weights at a junction and those at a station, and the importance of each line
/// (from 1 to 16, by the line's number): its lines by segment, and its terms node by node. The terms of a node are
/// sorted by the lesser of their two lines, then by the greater, then by kind (`Side`, `Link`, `Apart`), by segment, and
/// by the segments that the lines go on to. The weight of a term is that of its kind, times the importance of both
/// lines. The limit is answered exactly where there are more than 4,000,000 terms.
pub fn terms_of(
    alloc: Global,
    graph: &LineGraph,
    weights: &[Weights; 2],
    importance: &[u32],
) -> Result<Problem, LimitFault>
    requires light { All AreLight weights.now }
    requires importance { HaveImportance importance.now graph.now.lines }
    ensures { Gives (λ (p : ProblemParts). p) result (graph_problem graph.now weights.now importance.now) }
{
    let terms = all_terms(alloc, graph, weights, importance)?;
    let segs = all_lines(alloc, graph)?;
    Ok(Problem::new(ProblemParts {
        segs: Sequence::of(segs),
        terms: Sequence::of(terms),
    }))
}

/// The terms of all nodes.
fn all_terms(
    alloc: Global,
    graph: &LineGraph,
    weights: &[Weights; 2],
    importance: &[u32],
) -> Result<Vec<Term>, LimitFault>
    requires light { All AreLight weights.now }
    requires importance { HaveImportance importance.now graph.now.lines }
    ensures terms { IfOk result (λ ts. ts.items ≡ graph_terms graph.now weights.now importance.now) }
    ensures few { IfOk result (λ ts. vec_len ts ≤ 4000000) }
    ensures fits { IsConsistent graph.now }
    ensures limit { IfErr result (IsAbove 4000000 (length (graph_terms graph.now weights.now importance.now))) }
{
    let nodes = graph.nodes();
    let mut places = no_places(alloc, graph.segs())?;
    let mut terms = Vec::new(alloc);
    for n in 0..nodes {
        push_terms_at(
            alloc,
            graph,
            weights,
            importance,
            places.as_mut_slice(),
            NodeId(n),
            MOST_TERMS,
            &mut terms,
        )?;
    }
    Ok(terms)
}

/// A copy of the lines of each segment.
fn all_lines(alloc: Global, graph: &LineGraph) -> Result<Vec<Sequence<LineId>>, NoMemory>
    requires { IsConsistent graph.now }
    ensures { IfOk result (λ segs. segs.items ≡ graph.now.lines) }
{
    let mut segs = Vec::new(alloc);
    for s in 0..graph.segs() {
        let lines = copied(alloc, graph.lines(SegId(s)))?;
        segs.push(lines)?;
    }
    Ok(segs)
}

/// A copy of lines.
fn copied(alloc: Global, lines: &[LineId]) -> Result<Sequence<LineId>, NoMemory>
    ensures { IfOk result (λ copy. copy ≡ lines.now) }
{
    Ok(Sequence::of(lines.to_vec(alloc)?))
}
