//! What walks take: the points where they put nodes, and their doubled points.

ghost use Rattle.std.specs.Prelude.{◌≡◌, ◌≤◌, ◌<◌, ◌==◌, [], length, drop, None, IfOk, replicate, slice_index_or};
ghost use Rattle.std.specs.List.{AllByRecursion};
ghost use Rattle.std.specs.HashMap.{get};
ghost use Rattle.octi_grid.specs.Ways.{after, are_one, doubled, points_from, IsDoubled, IsWithin};
ghost use Rattle.octi_grid.specs.Legal.{is_even};
ghost use Rattle.octi_grid.specs.Runs.{steps_of, IsShort};
ghost use Rattle.octi_grid.specs.Taking.{first_half_count, half_steps, is_or_none, may_put, trail, AreTables, Puts, Takes};

use crate::dir::Dir;
use crate::point::GridPoint;
use crate::point_set::PointSet;
use crate::runs::run_end;
use crate::walk::Run;
use map_base::{NoMemory, NodeId};
use std::alloc::Global;
use std::collections::HashMap;

/// Where walks put nodes, and the doubled points that they take.
#[derive(Drop)]
pub(crate) struct Taken {
    /// Where each node is put, by its number.
    pub(crate) points: Vec<Option<GridPoint>>,
    /// The node that is put at a point.
    pub(crate) nodes: HashMap<GridPoint, u32>,
    /// The doubled points.
    pub(crate) doubled: PointSet,
}

impl Taken {
    /// Nothing is taken, and none of so many nodes is put anywhere.
    pub(crate) fn none(alloc: Global, nodes: u32) -> Result<Taken, NoMemory>
        ensures { IfOk result (AreTables nodes [] []) }
    {
        Ok(Taken {
            points: vec![in alloc; None; nodes as usize]?,
            nodes: HashMap::new(alloc),
            doubled: PointSet::none(alloc)?,
        })
    }

    /// Whether a node may be put at a point: it is even, the node's point if it has one, and no other node's.
    pub(crate) fn may_put(&self, n: NodeId, p: GridPoint) -> bool
        requires { n.0 < length self.now.points.items }
        ensures { result ≡ may_put (slice_index_or self.now.points.items n.0 None) (get are_one self.now.nodes p) n.0 p }
    {
        is_even(p)
            && is_or_none(self.points[n.0 as usize], p)
            && is_node_or_none(self.nodes.get(&p).copied(), n.0)
    }

    /// Puts a node at a point, where it is not put yet. Whether its doubled point was not taken then.
    pub(crate) fn put(&mut self, n: NodeId, p: GridPoint) -> Result<bool, NoMemory>
        requires node { n.0 < length self.old.points.items }
        requires within { IsWithin p }
        ensures { IfOk result (Puts self.old self.new n.0 p) }
    {
        if self.points[n.0 as usize].is_some() {
            return Ok(true);
        }
        self.points[n.0 as usize] = Some(p);
        self.nodes.insert(p, n.0)?;
        Ok(self.doubled.insert(p.doubled())?)
    }
}

/// Whether both coordinates are even.
fn is_even(p: GridPoint) -> bool
    ensures { result ≡ is_even p }
{
    p.x.unsigned_abs() % 2 == 0 && p.y.unsigned_abs() % 2 == 0
}

/// Whether there is no point, or it is this one.
fn is_or_none(point: Option<GridPoint>, p: GridPoint) -> bool
    ensures { result ≡ is_or_none (are_one p) point }
{
    match point {
        None => true,
        Some(q) => p == q,
    }
}

/// Whether there is no node, or it is this one.
fn is_node_or_none(node: Option<u32>, n: u32) -> bool
    ensures { result ≡ is_or_none (λ m. n == m) node }
{
    match node {
        None => true,
        Some(m) => n == m,
    }
}

/// Takes the doubled points of a way between its ends. Whether none was taken before, or twice.
pub(crate) fn take_between(
    points: &mut PointSet,
    start: GridPoint,
    runs: &[Run],
) -> Result<bool, NoMemory>
    requires { AllByRecursion IsWithin (points_from start (steps_of runs.now)) }
    ensures { IfOk result (Takes points.old points.new (trail (doubled start) (half_steps runs.now))) }
{
    let mut at = start;
    for i in 0..runs.len() {
        let run = runs[i];
        if !take_run(points, at.doubled(), run.dir, half_count(runs, i))? {
            return Ok(false);
        }
        at = run_end(at, run);
    }
    Ok(true)
}

/// How many half steps a run has, but for the last one of all runs.
fn half_count(runs: &[Run], i: usize) -> u32
    requires place { i < length runs.now }
    requires runs { AllByRecursion IsShort runs.now }
    ensures { result ≡ first_half_count (drop i runs.now) }
{
    let whole = 2 * runs[i].count;
    if i + 1 == runs.len() {
        return whole.saturating_sub(1);
    }
    whole
}

/// Takes the points of a run but its start. Whether none was taken before, or twice.
fn take_run(points: &mut PointSet, start: GridPoint, dir: Dir, count: u32) -> Result<bool, NoMemory>
    requires start { IsDoubled start }
    requires end { IsDoubled (after start (replicate count dir)) }
    ensures { IfOk result (Takes points.old points.new (trail start (replicate count dir))) }
{
    let mut at = start;
    for _ in 0..count {
        at = at.step(dir);
        if !points.insert(at)? {
            return Ok(false);
        }
    }
    Ok(true)
}
