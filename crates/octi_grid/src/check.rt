//! The check that a drawing is legal.

ghost use Rattle.std.specs.Prelude.{◌≡◌, ◌+◌, ◌<◌, ◌++◌, ◌∷◌, [], ℕ, List, true, length, take, None, IfOk, IfErr, OnOk, IsTrue};
ghost use Rattle.graph_core.specs.Consistent.{IsConsistent};
ghost use Rattle.octi_grid.specs.Legal.{ends_hold, first_illegal, legal, legs_of, why_illegal, IsCause, Leg};
ghost use Rattle.octi_grid.specs.Taking.{IsStopAt, IsTaken, TakesLeg};

use crate::cost::end_of;
use crate::drawing::{DrawWhy, Drawing, DrawingStop};
use crate::ports::are_clockwise;
use crate::taken::{Taken, take_between};
use crate::walk::Walk;
use graph_core::LineGraph;
use map_base::{NoMemory, NodeId, SegId};
use std::alloc::Global;

/// Whether a drawing is legal: each walk joins the points of its end nodes, which are even and distinct; no doubled point
/// is there twice, or another node's; and round each node the ports are distinct and clockwise. Else the first walk that
/// with its predecessors is not legal, and the first reason. A drawing has one walk for each segment.
pub fn check_drawing(alloc: Global, graph: &LineGraph, drawing: &Drawing) -> Result<(), DrawingStop>
    requires { length drawing.now.walks ≡ length graph.now.ends }
    ensures accepted { IfOk result (λ _. first_illegal graph.now drawing.now.walks ≡ None) }
    ensures refused { IfErr result (IsCause (first_illegal graph.now drawing.now.walks)) }
    ensures legal { IfOk result (λ _. IsTrue (legal graph.now drawing.now.walks)) }
{
    let walks = drawing.walks.as_slice();
    let mut taken = Taken::none(alloc, graph.nodes())?;
    for k in 0..walks.len() {
        check_walk(graph, walks, k, &mut taken)?;
    }
    Ok(())
}

/// Whether a walk is legal with its predecessors, which are. It takes its points then.
fn check_walk(
    graph: &LineGraph,
    walks: &[Walk],
    k: usize,
    taken: &mut Taken,
) -> Result<(), DrawingStop>
    requires graph { IsConsistent graph.now }
    requires walks { length walks.now ≡ length graph.now.ends }
    requires place { k < length walks.now }
    requires taken { IsTaken (length graph.now.kinds) (take k (legs_of graph.now.ends walks.now)) taken.old }
    requires legal { why_illegal graph.now.rounds (take k (legs_of graph.now.ends walks.now)) ≡ None }
    ensures taken { OnOk result (IsTaken (length graph.now.kinds) (take (k + 1) (legs_of graph.now.ends walks.now)) taken.new) }
    ensures legal { OnOk result (why_illegal graph.now.rounds (take (k + 1) (legs_of graph.now.ends walks.now)) ≡ None) }
    ensures stops { IfErr result (IsStopAt k (why_illegal graph.now.rounds (take (k + 1) (legs_of graph.now.ends walks.now)))) }
{
    let seg = SegId(k as u32);
    let ends = graph.ends(seg);
    let walk = &walks[k];
    if !ends_fit(taken, ends, walk) {
        return Err(DrawingStop::Bad {
            seg,
            why: DrawWhy::Ends,
        });
    }
    if !take_walk(taken, ends, walk)? {
        return Err(DrawingStop::Bad {
            seg,
            why: DrawWhy::Meets,
        });
    }
    if !are_clockwise(graph, walks, k + 1, ends.0) {
        return Err(DrawingStop::Bad {
            seg,
            why: DrawWhy::Ports,
        });
    }
    if !are_clockwise(graph, walks, k + 1, ends.1) {
        return Err(DrawingStop::Bad {
            seg,
            why: DrawWhy::Ports,
        });
    }
    Ok(())
}

/// Whether a walk joins points at which its end nodes may be put: even ones, those that they have, and no others'.
fn ends_fit(taken: &Taken, ends: (NodeId, NodeId), walk: &Walk) -> bool
    requires order { ends.0.0 < ends.1.0 }
    requires nodes { ends.1.0 < length taken.now.points.items }
    ensures { (legs : List Leg) (count : ℕ) → IsTaken count legs taken.now → ends_hold legs ≡ true → result ≡ ends_hold (legs ++ (ends, walk.now) ∷ []) }
{
    let start = walk.start();
    let end = end_of(walk);
    if start == end {
        return false;
    }
    taken.may_put(ends.0, start) && taken.may_put(ends.1, end)
}

/// Puts the end nodes of a walk, where they have no points yet, and takes its doubled points. Whether it meets nothing
/// that was taken.
fn take_walk(taken: &mut Taken, ends: (NodeId, NodeId), walk: &Walk) -> Result<bool, NoMemory>
    requires order { ends.0.0 < ends.1.0 }
    requires nodes { ends.1.0 < length taken.old.points.items }
    ensures { IfOk result (TakesLeg taken.old taken.new (ends, walk.now)) }
{
    let runs = walk.runs();
    let start = walk.start();
    if !taken.put(ends.0, start)? {
        return Ok(false);
    }
    if !taken.put(ends.1, end_of(walk))? {
        return Ok(false);
    }
    take_between(&mut taken.doubled, start, runs)
}
