//! What runs add to the weight of a drawing in the making.

ghost use Rattle.std.specs.Prelude.{◌≡◌, ◌*◌, ◌<◌, ◌≤◌, ◌^◌, length, true, All};
ghost use Rattle.drawing_weights.specs.Scales.{apart_weight_by, scale_of, turn_over};
ghost use Rattle.grid_board.specs.Points.{is_near};
ghost use Rattle.map_base.specs.declared.ids.NodeId.{NodeId};
ghost use Rattle.run_laying.specs.Attempts.{inner_nodes};
ghost use Rattle.run_laying.specs.Runs.{IsRun};
ghost use Rattle.run_laying.specs.Sketches.{is_standing, IsLegalSketch};
ghost use Rattle.drawing_search.specs.Gains.{first_point, node_weight_in, run_gain, segment_weight, step_gain, steps_gain, turn_by, turn_if, turn_in, turns_by, turns_from, AreOnGraph, IsField};

use crate::pairs::Pairs;
use crate::sketch::Sketch;
use drawing_weights::Weighing;
use graph_core::LineGraph;
use line_chains::{Chain, ChainStep};
use map_base::{NodeId, SegId};
use octi_grid::{Dir, GridPoint, turn_cost};

/// What stays while attempts are made: the line graph, its pairs of joined segments, by what a drawing is weighed, and
/// where each node stood first.
#[derive(Clone, Copy)]
pub(crate) struct Field<'a> {
    pub(crate) graph: &'a LineGraph,
    pub(crate) pairs: &'a Pairs,
    pub(crate) by: Weighing<'a>,
    pub(crate) first: &'a [GridPoint],
}

impl<'a> Field<'a> {
    /// What a node weighs for its distance where it stands at a point.
    pub(crate) fn apart_weight(self, n: NodeId, here: GridPoint) -> u64
        requires field { IsField self }
        requires node { n.0 < length self.graph.now.kinds }
        requires near { is_near 2000 here ≡ true }
        ensures weight { result ≡ apart_weight_by (scale_of self.entry.by) n.0 (first_point self.entry.first.now n.0) here }
        ensures small { result ≤ 2 ^ 32 }
    {
        self.by.apart_weight(n, self.first[n.0 as usize], here)
    }

    /// What a run adds that stands beside others: its walks, the nodes between its ends, and the turns of lines that go
    /// on from it at both ends.
    pub(crate) fn run_gain(self, sketch: &Sketch, run: &Chain) -> u64
        requires field { IsField self }
        requires legal { IsLegalSketch self.graph.now sketch.now }
        requires run { IsRun self.graph.now run.now }
        requires inner { All (λ (n : NodeId). is_standing sketch.now n.0 ≡ true) (inner_nodes run.now.steps) }
        ensures gain { result ≡ run_gain (scale_of self.entry.by) self.entry.graph.now self.entry.first.now sketch.now run.now }
        ensures small { result ≤ 2 ^ 56 }
    {
        let steps = run.steps.as_slice();
        let last = steps[steps.len() - 1];
        self.turns_with(sketch, run.from, steps[0].seg)
            + self.steps_gain(sketch, steps)
            + self.turns_with(sketch, last.to, last.seg)
    }

    /// What steps of a run add: their walks, and the nodes between them.
    fn steps_gain(self, sketch: &Sketch, steps: &[ChainStep]) -> u64
        requires field { IsField self }
        requires legal { IsLegalSketch self.graph.now sketch.now }
        requires steps { AreOnGraph self.graph.now steps.now }
        requires inner { All (λ (n : NodeId). is_standing sketch.now n.0 ≡ true) (inner_nodes steps.now) }
        requires few { length steps.now ≤ 20000 }
        ensures gain { result ≡ steps_gain (scale_of self.entry.by) self.entry.graph.now self.entry.first.now sketch.now steps.now }
        ensures small { result ≤ 2 ^ 55 }
    {
        let mut total = 0;
        for i in 0..steps.len() {
            total += self.step_gain(sketch, steps[i], i + 1 < steps.len());
        }
        total
    }

    /// What a step of a run adds: its walk, and the node to which it leads, if that lies between the ends.
    fn step_gain(self, sketch: &Sketch, step: ChainStep, is_inner: bool) -> u64
        requires field { IsField self }
        requires legal { IsLegalSketch self.graph.now sketch.now }
        requires segment { step.seg.0 < length self.graph.now.ends }
        requires node { step.to.0 < length self.graph.now.kinds }
        requires inner { is_inner ≡ true → is_standing sketch.now step.to.0 ≡ true }
        ensures gain { result ≡ step_gain (scale_of self.entry.by) self.entry.graph.now self.entry.first.now sketch.now step is_inner }
        ensures small { result ≤ 2 ^ 40 }
    {
        let walk = self.walk_at(sketch, step.seg);
        if !is_inner {
            return walk;
        }
        walk + self.turns_with(sketch, step.to, step.seg)
            + self.apart_weight(step.to, sketch.point(step.to))
    }

    /// What the walk of a segment weighs, if it has one.
    pub(crate) fn walk_at(self, sketch: &Sketch, s: SegId) -> u64
        requires field { IsField self }
        requires legal { IsLegalSketch self.graph.now sketch.now }
        requires segment { s.0 < length self.graph.now.ends }
        ensures weight { result ≡ segment_weight (scale_of self.entry.by) sketch.now s }
        ensures small { result ≤ 2 ^ 33 }
    {
        match &sketch.walks[s.0 as usize] {
            None => 0,
            Some(walk) => self.by.walk_weight(walk),
        }
    }

    /// What a node weighs: the turns that lines make over it, and its distance.
    pub(crate) fn node_weight(self, sketch: &Sketch, n: NodeId) -> u64
        requires field { IsField self }
        requires legal { IsLegalSketch self.graph.now sketch.now }
        requires node { n.0 < length self.graph.now.kinds }
        requires stands { is_standing sketch.now n.0 ≡ true }
        ensures weight { result ≡ node_weight_in (scale_of self.entry.by) self.entry.graph.now self.entry.first.now sketch.now n.0 }
        ensures small { result ≤ 2 ^ 40 }
    {
        let mut total = 0;
        for pair in self.pairs.at(n) {
            total += self.turn(sketch, n, *pair);
        }
        self.by.overs * total + self.apart_weight(n, sketch.point(n))
    }

    /// What the turns weigh that lines make over a node from a segment to others that have a walk.
    fn turns_with(self, sketch: &Sketch, n: NodeId, s: SegId) -> u64
        requires field { IsField self }
        requires legal { IsLegalSketch self.graph.now sketch.now }
        requires node { n.0 < length self.graph.now.kinds }
        ensures weight { result ≡ self.entry.by.overs * turns_from self.entry.graph.now sketch.now n.0 s }
        ensures small { result ≤ 2 ^ 39 }
    {
        let mut total = 0;
        for pair in self.pairs.at(n) {
            total += self.turn_if(sketch, n, *pair, s);
        }
        self.by.overs * total
    }

    /// The same where the segment, which has no walk, has this port there.
    pub(crate) fn turns_by(self, sketch: &Sketch, n: NodeId, s: SegId, port: Dir) -> u64
        requires field { IsField self }
        requires legal { IsLegalSketch self.graph.now sketch.now }
        requires node { n.0 < length self.graph.now.kinds }
        ensures weight { result ≡ self.entry.by.overs * turns_by self.entry.graph.now sketch.now n.0 s port }
        ensures small { result ≤ 2 ^ 39 }
    {
        let mut total = 0;
        for pair in self.pairs.at(n) {
            total += self.turn_by(sketch, n, *pair, s, port);
        }
        self.by.overs * total
    }

    /// The turn over a node between two segments, if one of them is this one, which has this port there, and the other one
    /// has a walk.
    fn turn_by(self, sketch: &Sketch, n: NodeId, pair: (SegId, SegId), s: SegId, port: Dir) -> u64
        requires field { IsField self }
        requires legal { IsLegalSketch self.graph.now sketch.now }
        requires first { pair.0.0 < length self.graph.now.ends }
        requires second { pair.1.0 < length self.graph.now.ends }
        ensures turn { result ≡ turn_by self.entry.graph.now sketch.now n.0 s port pair }
        ensures small { result ≤ 4 }
    {
        if pair.0.0 == s.0 {
            return turn_over(Some(port), sketch.port(self.graph, n, pair.1));
        }
        if pair.1.0 == s.0 {
            return turn_over(Some(port), sketch.port(self.graph, n, pair.0));
        }
        0
    }

    /// The turn over a node between two segments, if this is one of them and both have a walk.
    fn turn_if(self, sketch: &Sketch, n: NodeId, pair: (SegId, SegId), s: SegId) -> u64
        requires field { IsField self }
        requires legal { IsLegalSketch self.graph.now sketch.now }
        requires first { pair.0.0 < length self.graph.now.ends }
        requires second { pair.1.0 < length self.graph.now.ends }
        ensures turn { result ≡ turn_if self.entry.graph.now sketch.now n.0 s pair }
        ensures small { result ≤ 4 }
    {
        if pair.0.0 == s.0 || pair.1.0 == s.0 {
            return self.turn(sketch, n, pair);
        }
        0
    }

    /// The turn over a node between two segments, if both have a walk.
    fn turn(self, sketch: &Sketch, n: NodeId, pair: (SegId, SegId)) -> u64
        requires field { IsField self }
        requires legal { IsLegalSketch self.graph.now sketch.now }
        requires first { pair.0.0 < length self.graph.now.ends }
        requires second { pair.1.0 < length self.graph.now.ends }
        ensures turn { result ≡ turn_in self.entry.graph.now sketch.now n.0 pair }
        ensures small { result ≤ 4 }
    {
        turn_over(
            sketch.port(self.graph, n, pair.0),
            sketch.port(self.graph, n, pair.1),
        )
    }
}

/// The turn of a line that comes by the one port and goes on by the other.
fn turn_over(first: Option<Dir>, second: Option<Dir>) -> u64
    ensures turn { result ≡ turn_over first second }
    ensures small { result ≤ 4 }
{
    match first {
        None => 0,
        Some(from) => match second {
            None => 0,
            Some(to) => u64::from(turn_cost(from.reverse(), to)),
        },
    }
}
