//! What runs add at least, and what their walks may cost.

ghost use Rattle.std.specs.Prelude.{◌≡◌, ◌+◌, ◌*◌, ◌-◌, ◌/◌, ◌<◌, ◌≤◌, ◌==◌, ◌^◌, length, if◌then◌else◌, slice_index, All, IfOk, Some};
ghost use Rattle.drawing_weights.specs.Scales.{scale_of};
ghost use Rattle.octi_grid.specs.Ways.{number_of, reverse_of};
ghost use Rattle.run_laying.specs.Runs.{IsRun};
ghost use Rattle.run_laying.specs.Sketches.{is_standing, IsLegalSketch};
ghost use Rattle.walk_search.specs.Moves.{direction};
ghost use Rattle.drawing_search.specs.Gains.{AreOnGraph, IsField};
ghost use Rattle.drawing_search.specs.Least.{diagonal, free_nodes, is_free_node, ports_for, straight_way, turn_price, turns_at_least};
ghost use Rattle.drawing_search.specs.Bounds.{least_between, limit_between, overs_by, with_first_by, with_last_by, with_walk_by, AreOvers, IsLeastOf, IsSmallLeast, IsSmallOver};

use crate::gains::Field;
use crate::sketch::Sketch;
use line_chains::{Chain, ChainStep};
use map_base::{NoMemory, NodeId, SegId};
use octi_grid::{Dir, GridPoint, turn_cost};
use std::alloc::Global;
use walk_search::{allows, reach};

/// More than any drawing weighs: where a segment may have no port.
const NEVER: u64 = 1 << 50;

/// What a run adds at least beside what it costs to come from one end to the other, by the number of the direction in which
/// a straight way leads there, or by 8 where none does; what a turn of 45 degrees in its walk adds at least; and how many
/// such turns may add nothing, at nodes that no line goes over.
#[derive(Clone, Copy, Debug)]
pub(crate) struct LeastTurns {
    by: [u64; 9],
    per_turn: u64,
    free_turns: u64,
}

impl LeastTurns {
    /// What the run adds at least between two points.
    pub(crate) fn between(self, from: GridPoint, to: GridPoint) -> u64
        requires { IsSmallLeast self }
        ensures value { result ≡ least_between self from to }
        ensures small { result ≤ 2 ^ 51 }
    {
        reach(from, to) + self.turns_between(from, to)
    }

    /// The same beside what it costs to come over.
    fn turns_between(self, from: GridPoint, to: GridPoint) -> u64
        ensures { result ≡ slice_index self.by (straight_way from to) }
    {
        self.by[straight_way(from, to)]
    }

    /// What the walk of the run may cost between two points at most where the run may add so much, which is no less than it
    /// adds at least. What it adds for turns it costs once more only for each turn.
    pub(crate) fn walk_limit(self, may_add: u64, from: GridPoint, to: GridPoint) -> u64
        requires small { IsSmallLeast self }
        requires enough { slice_index self.by (straight_way from to) ≤ may_add }
        requires may_add { may_add ≤ 2 ^ 57 }
        ensures value { result ≡ limit_between self may_add from to }
        ensures small { result < 2 ^ 63 }
    {
        let turns = self.turns_between(from, to);
        may_add - turns + self.most_turns(turns)
    }

    /// How many turns of 45 degrees the walk makes at most beside what it adds for so much.
    fn most_turns(self, turns: u64) -> u64
        ensures value { result ≡ (if self.per_turn == 0 then self.free_turns else turns / self.per_turn) }
        ensures small { result ≤ turns + self.free_turns }
    {
        if self.per_turn == 0 {
            return self.free_turns;
        }
        turns / self.per_turn
    }

    /// The least of these and of walks that leave by one port, if it is allowed, and come by any port that is.
    fn with_first(&mut self, first: Dir, overs: Option<u64>, to: &[Option<u64>; 8])
        requires small { IsSmallLeast self.old }
        requires overs { IsSmallOver overs }
        requires to { All IsSmallOver to.now }
        ensures value { self.new ≡ with_first_by self.old first overs to.now }
        ensures small { IsSmallLeast self.new }
    {
        let Some(here) = overs else {
            return;
        };
        for i in 0..8 {
            self.with_last(first, here, direction(i), to[i]);
        }
    }

    /// The same of walks that come by one port, if it is allowed.
    fn with_last(&mut self, first: Dir, here: u64, port: Dir, overs: Option<u64>)
        requires small { IsSmallLeast self.old }
        requires here { here ≤ 2 ^ 39 }
        requires overs { IsSmallOver overs }
        ensures value { self.new ≡ with_last_by self.old first here port overs }
        ensures small { IsSmallLeast self.new }
    {
        if let Some(there) = overs {
            self.with_walk(first, port.reverse(), here + there);
        }
    }

    /// The least of these and of a walk that leaves by one direction, comes in another, and makes lines turn over its ends
    /// by so much.
    fn with_walk(&mut self, first: Dir, last: Dir, overs: u64)
        requires small { IsSmallLeast self.old }
        requires overs { overs ≤ 2 ^ 41 }
        ensures value { self.new ≡ with_walk_by self.old first last overs }
        ensures small { IsSmallLeast self.new }
    {
        for way in 0..9 {
            let weight = overs + self.per_turn * turns_at_least(first, last, way);
            self.by[way] = self.by[way].min(weight);
        }
    }
}

impl<'a> Field<'a> {
    /// What a run adds at least, where others stand: by the ports that its first and its last segment may have, and the
    /// turns that lines then make over its ends.
    pub(crate) fn least_turns(
        self,
        alloc: Global,
        sketch: &Sketch,
        run: &Chain,
    ) -> Result<LeastTurns, NoMemory>
        requires field { IsField self }
        requires legal { IsLegalSketch self.graph.now sketch.now }
        requires run { IsRun self.graph.now run.now }
        ensures least { IfOk result (IsLeastOf (scale_of self.entry.by) self.entry.graph.now sketch.now run.now) }
        ensures small { IfOk result IsSmallLeast }
    {
        let steps = run.steps.as_slice();
        let last = steps[steps.len() - 1];
        let from = self.overs_at(alloc, sketch, run.from, steps[0].seg)?;
        let to = self.overs_at(alloc, sketch, last.to, last.seg)?;
        let mut least = LeastTurns {
            by: [NEVER; 9],
            per_turn: self.turn_price(steps),
            free_turns: 4 * self.free_nodes(steps),
        };
        for i in 0..8 {
            least.with_first(direction(i), from[i], &to);
        }
        Ok(least)
    }

    /// For each port that a segment may have at a node, what the turns then weigh that lines make from it to segments that
    /// have a walk.
    fn overs_at(
        self,
        alloc: Global,
        sketch: &Sketch,
        n: NodeId,
        s: SegId,
    ) -> Result<[Option<u64>; 8], NoMemory>
        requires field { IsField self }
        requires legal { IsLegalSketch self.graph.now sketch.now }
        requires node { n.0 < length self.graph.now.kinds }
        requires segment { s.0 < length self.graph.now.ends }
        ensures overs { IfOk result (AreOvers (scale_of self.entry.by) self.entry.graph.now sketch.now n.0 s) }
        ensures small { IfOk result (All IsSmallOver) }
    {
        let allowed = sketch.ports_for(alloc, self.graph, n, s)?;
        let mut overs = [None; 8];
        for i in 0..8 {
            overs[i] = self.over_by(sketch, n, s, allowed, direction(i));
        }
        Ok(overs)
    }

    /// What the turns weigh for one port, if these ports hold it.
    fn over_by(self, sketch: &Sketch, n: NodeId, s: SegId, ports: u8, port: Dir) -> Option<u64>
        requires field { IsField self }
        requires legal { IsLegalSketch self.graph.now sketch.now }
        requires node { n.0 < length self.graph.now.kinds }
        requires segment { s.0 < length self.graph.now.ends }
        requires ports { ports ≡ ports_for self.graph.now sketch.now n.0 s }
        ensures value { result ≡ overs_by (scale_of self.entry.by) self.entry.graph.now sketch.now n.0 s port }
        ensures small { IsSmallOver result }
    {
        if !allows(ports, port) {
            return None;
        }
        Some(self.turns_by(sketch, n, s, port))
    }

    /// What a turn of 45 degrees in the walk of a run weighs at least: nothing where it may lie at a node that no line goes
    /// over.
    fn turn_price(self, steps: &[ChainStep]) -> u64
        requires field { IsField self }
        requires steps { AreOnGraph self.graph.now steps.now }
        requires some { 0 < length steps.now }
        ensures price { result ≡ turn_price (scale_of self.entry.by) self.entry.graph.now steps.now }
        ensures small { result ≤ 101 }
    {
        if steps.len() == 1 {
            return 1 + self.by.turns;
        }
        if self.free_nodes(steps) != 0 {
            return 0;
        }
        self.by.overs.min(1 + self.by.turns)
    }

    /// How many of the nodes between the ends of a run no line goes over.
    fn free_nodes(self, steps: &[ChainStep]) -> u64
        requires field { IsField self }
        requires steps { AreOnGraph self.graph.now steps.now }
        ensures count { result ≡ free_nodes (scale_of self.entry.by) self.entry.graph.now steps.now }
        ensures small { result ≤ length steps.now }
    {
        let mut count = 0;
        for i in 1..steps.len() {
            count += self.free_at(steps[i - 1].to);
        }
        count
    }

    /// One for a node that no line goes over, or where that weighs nothing, and else none.
    fn free_at(self, n: NodeId) -> u64
        requires field { IsField self }
        requires node { n.0 < length self.graph.now.kinds }
        ensures count { result ≡ (if is_free_node (scale_of self.entry.by) self.entry.graph.now n then 1 else 0) }
        ensures small { result ≤ 1 }
    {
        if self.pairs.at(n).is_empty() {
            return 1;
        }
        if self.by.overs == 0 {
            return 1;
        }
        0
    }
}

/// The direction of a number, clockwise from north.
pub(crate) fn direction(number: usize) -> Dir
    requires { number < 8 }
    ensures { result ≡ direction number }
{
    match number {
        0 => Dir::N,
        1 => Dir::NE,
        2 => Dir::E,
        3 => Dir::SE,
        4 => Dir::S,
        5 => Dir::SW,
        6 => Dir::W,
        _ => Dir::NW,
    }
}

/// How many turns of 45 degrees a walk makes at least that leaves by one direction, comes in another, and ends where a
/// straight way in the direction of a number leads, or none.
fn turns_at_least(first: Dir, last: Dir, straight: usize) -> u64
    ensures value { result ≡ turns_at_least first last straight }
    ensures small { result ≤ 4 }
{
    let between = u64::from(turn_cost(first, last));
    if usize::from(first.index()) == straight && usize::from(last.index()) == straight {
        between
    } else {
        between.max(1)
    }
}

/// The number of the direction in which a straight way leads from one point to another; 8 where none does.
fn straight_way(from: GridPoint, to: GridPoint) -> usize
    ensures value { result ≡ straight_way from to }
    ensures small { result ≤ 8 }
{
    let across = to.x.abs_diff(from.x);
    let along = to.y.abs_diff(from.y);
    if across == 0 {
        return if from.y < to.y { 0 } else { 4 };
    }
    if along == 0 {
        return if from.x < to.x { 2 } else { 6 };
    }
    if across == along {
        return diagonal(from.x < to.x, from.y < to.y);
    }
    8
}

/// The number of a diagonal direction.
fn diagonal(is_east: bool, is_north: bool) -> usize
    ensures value { result ≡ diagonal is_east is_north }
    ensures small { result ≤ 8 }
{
    if is_east {
        if is_north { 1 } else { 3 }
    } else if is_north {
        7
    } else {
        5
    }
}
