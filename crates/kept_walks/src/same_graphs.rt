//! Whether two line graphs are the same.

ghost use Rattle.std.specs.Prelude.{◌≡◌, ◌<◌, length, IsTrue, slice_get};
ghost use Rattle.graph_core.specs.Consistent.{IsConsistent};

use graph_core::LineGraph;
use map_base::{NodeId, SegId};

/// Whether two line graphs are the same.
pub(crate) fn are_same_graphs(some: &LineGraph, other: &LineGraph) -> bool
    ensures { IsTrue result → some.now ≡ other.now }
{
    some.nodes() == other.nodes()
        && some.segs() == other.segs()
        && have_same_nodes(some, other)
        && have_same_segments(some, other)
}

/// Whether graphs of as many nodes have the same at each of them.
#[tactic(auto, using(crate::proofs::Lists::same_more, crate::proofs::Lists::all_same))]
fn have_same_nodes(some: &LineGraph, other: &LineGraph) -> bool
    requires some { IsConsistent some.now }
    requires other { IsConsistent other.now }
    requires count { length some.now.kinds ≡ length other.now.kinds }
    ensures kinds { IsTrue result → some.now.kinds ≡ other.now.kinds }
    ensures places { IsTrue result → some.now.places ≡ other.now.places }
    ensures rounds { IsTrue result → some.now.rounds ≡ other.now.rounds }
    ensures joins { IsTrue result → some.now.joins ≡ other.now.joins }
{
    for n in 0..some.nodes() {
        if !have_same_node(some, other, NodeId(n)) {
            return false;
        }
    }
    true
}

/// Whether graphs have the same at a node.
fn have_same_node(some: &LineGraph, other: &LineGraph, n: NodeId) -> bool
    requires some { n.0 < length some.now.kinds }
    requires other { n.0 < length other.now.kinds }
    ensures kinds { IsTrue result → slice_get some.now.kinds n.0 ≡ slice_get other.now.kinds n.0 }
    ensures places { IsTrue result → slice_get some.now.places n.0 ≡ slice_get other.now.places n.0 }
    ensures rounds { IsTrue result → slice_get some.now.rounds n.0 ≡ slice_get other.now.rounds n.0 }
    ensures joins { IsTrue result → slice_get some.now.joins n.0 ≡ slice_get other.now.joins n.0 }
{
    some.kind(n) == other.kind(n)
        && some.place(n) == other.place(n)
        && have_same_round(some, other, n)
        && have_same_joins(some, other, n)
}

/// Whether graphs have the same segments round a node.
fn have_same_round(some: &LineGraph, other: &LineGraph, n: NodeId) -> bool
    requires some { n.0 < length some.now.kinds }
    requires other { n.0 < length other.now.kinds }
    ensures { IsTrue result → slice_get some.now.rounds n.0 ≡ slice_get other.now.rounds n.0 }
{
    let round = some.round(n);
    round == other.round(n)
}

/// Whether graphs have the same connections at a node.
fn have_same_joins(some: &LineGraph, other: &LineGraph, n: NodeId) -> bool
    requires some { n.0 < length some.now.kinds }
    requires other { n.0 < length other.now.kinds }
    ensures { IsTrue result → slice_get some.now.joins n.0 ≡ slice_get other.now.joins n.0 }
{
    let joins = some.joins(n);
    joins == other.joins(n)
}

/// Whether graphs of as many segments have the same at each of them.
#[tactic(auto, using(crate::proofs::Lists::same_more, crate::proofs::Lists::all_same))]
fn have_same_segments(some: &LineGraph, other: &LineGraph) -> bool
    requires some { IsConsistent some.now }
    requires other { IsConsistent other.now }
    requires count { length some.now.ends ≡ length other.now.ends }
    ensures ends { IsTrue result → some.now.ends ≡ other.now.ends }
    ensures lines { IsTrue result → some.now.lines ≡ other.now.lines }
{
    for s in 0..some.segs() {
        if !have_same_segment(some, other, SegId(s)) {
            return false;
        }
    }
    true
}

/// Whether graphs have the same at a segment.
fn have_same_segment(some: &LineGraph, other: &LineGraph, s: SegId) -> bool
    requires some { s.0 < length some.now.ends }
    requires other { s.0 < length other.now.ends }
    ensures ends { IsTrue result → slice_get some.now.ends s.0 ≡ slice_get other.now.ends s.0 }
    ensures lines { IsTrue result → slice_get some.now.lines s.0 ≡ slice_get other.now.lines s.0 }
{
    some.ends(s) == other.ends(s) && have_same_lines(some, other, s)
}

/// Whether graphs have the same lines on a segment.
fn have_same_lines(some: &LineGraph, other: &LineGraph, s: SegId) -> bool
    requires some { s.0 < length some.now.ends }
    requires other { s.0 < length other.now.ends }
    ensures { IsTrue result → slice_get some.now.lines s.0 ≡ slice_get other.now.lines s.0 }
{
    let lines = some.lines(s);
    lines == other.lines(s)
}
