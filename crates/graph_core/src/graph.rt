//! A line graph whose parts fit together, and its readers.

ghost use Rattle.std.specs.Prelude.{◌≡◌, ◌<◌, length, Some, Contains, slice_get, slice_index_or, []};
ghost use Rattle.graph_core.specs.Round.{IsAfter};

use crate::parts::{GraphParts, Join, NodeKind};
use map_base::{LineId, NodeId, Point, SegId};
use std::marker::Model;

/// A consistent line graph, seen as its parts.
#[derive(Debug, Drop)]
pub struct LineGraph {
    parts: GraphParts,
}

impl Model for LineGraph {
    ghost use Rattle.graph_core.specs.declared.parts.GraphParts.{GraphParts};

    ghost Value = { GraphParts };

    ghost use Rattle.graph_core.specs.Consistent.{IsConsistent};

    ghost view = { λ g. g.parts };

    ghost invariant = { λ g. IsConsistent g.parts };
}

impl LineGraph {
    ghost use Rattle.graph_core.specs.Consistent.{IsConsistent};

    /// The graph of these parts.
    pub fn new(parts: GraphParts) -> LineGraph
        requires { IsConsistent parts }
        ensures { result ≡ parts }
    {
        LineGraph { parts }
    }

    /// How many nodes there are.
    pub fn nodes(&self) -> u32
        ensures count { result ≡ length self.now.kinds }
        ensures fits { IsConsistent self.now }
    {
        self.parts.kinds.as_slice().len() as u32
    }

    /// How many segments there are.
    pub fn segs(&self) -> u32
        ensures { result ≡ length self.now.ends }
    {
        self.parts.ends.as_slice().len() as u32
    }

    /// What a node stands for.
    pub fn kind(&self, n: NodeId) -> NodeKind
        requires { n.0 < length self.now.kinds }
        ensures { slice_get self.now.kinds n.0 ≡ Some result }
    {
        self.parts.kinds.as_slice()[n.0 as usize]
    }

    /// Where a node lies.
    pub fn place(&self, n: NodeId) -> Point
        requires { n.0 < length self.now.kinds }
        ensures { slice_get self.now.places n.0 ≡ Some result }
    {
        self.parts.places.as_slice()[n.0 as usize]
    }

    /// The lower and the upper end of a segment.
    pub fn ends(&self, s: SegId) -> (NodeId, NodeId)
        requires { s.0 < length self.now.ends }
        ensures { slice_get self.now.ends s.0 ≡ Some result }
    {
        self.parts.ends.as_slice()[s.0 as usize]
    }

    /// The lines of a segment, rising.
    pub fn lines(&self, s: SegId) -> &[LineId]
        requires { s.0 < length self.now.ends }
        ensures { slice_get self.now.lines s.0 ≡ Some result.now }
    {
        self.parts.lines.as_slice()[s.0 as usize].as_slice()
    }

    /// The segments at a node, clockwise from north.
    pub fn round(&self, n: NodeId) -> &[SegId]
        requires { n.0 < length self.now.kinds }
        ensures { slice_get self.now.rounds n.0 ≡ Some result.now }
    {
        self.parts.rounds.as_slice()[n.0 as usize].as_slice()
    }

    /// The connections at a node, rising by lesser segment, then by greater segment, then by line.
    pub fn joins(&self, n: NodeId) -> &[Join]
        requires { n.0 < length self.now.kinds }
        ensures { slice_get self.now.joins n.0 ≡ Some result.now }
    {
        self.parts.joins.as_slice()[n.0 as usize].as_slice()
    }

    /// The segment `k` places clockwise after `s` at its node `n`.
    pub fn clockwise_after(&self, n: NodeId, s: SegId, k: u32) -> SegId
        requires node { n.0 < length self.now.kinds }
        requires segment { Contains (slice_index_or self.now.rounds n.0 []) s }
        ensures { IsAfter (slice_index_or self.now.rounds n.0 []) s k result }
    {
        after(self.round(n), s, k)
    }
}

/// The segment `k` places clockwise after `s` in a round.
fn after(round: &[SegId], s: SegId, k: u32) -> SegId
    requires { Contains round.now s }
    ensures { IsAfter round.now s k result }
{
    round[(place_of(round, s) + k as usize) % round.len()]
}

/// Where a segment stands in a round.
fn place_of(round: &[SegId], s: SegId) -> usize
    requires { Contains round.now s }
    ensures { slice_get round.now result ≡ Some s }
{
    for (i, r) in round.iter().enumerate() {
        if *r == s {
            return i;
        }
    }
    unreachable!()
}
