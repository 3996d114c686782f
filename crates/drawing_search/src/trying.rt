//! Attempts of a group, one after another.

ghost use Rattle.std.specs.Prelude.{◌≡◌, ◌+◌, ◌-◌, ◌*◌, ◌<◌, ◌≤◌, ◌==◌, ◌%◌, ◌/◌, ◌^◌, ℕ, fold, length, map, min, replicate, slice_index_or, if◌then◌else◌, true, All, IfOk, OnOk};
ghost use Rattle.std.specs.List.{sum_by};
ghost use Rattle.map_base.specs.declared.ids.NodeId.{NodeId};
ghost use Rattle.graph_core.specs.Consistent.{IsConsistent};
ghost use Rattle.line_chains.specs.declared.chain.Chain.{Chain};
ghost use Rattle.line_chains.specs.Chains.{end_of};
ghost use Rattle.octi_grid.specs.declared.point.GridPoint.{GridPoint};
ghost use Rattle.octi_grid.specs.Ways.{after};
ghost use Rattle.walk_search.specs.Moves.{direction};
ghost use Rattle.grid_board.specs.Points.{is_near};
ghost use Rattle.drawing_weights.specs.Scales.{apart_weight_by, scale_of};
ghost use Rattle.run_laying.specs.Laying.{Sketch as Drawn};
ghost use Rattle.run_laying.specs.Runs.{IsFitting, IsRun};
ghost use Rattle.run_laying.specs.Sketches.{lifted, point_of_node, IsFreeFor, IsLegalSketch};
ghost use Rattle.drawing_search.specs.Bounds.{gains_at_least, least_between, HaveBounds, IsBoundOf, IsSmallLeast};
ghost use Rattle.drawing_search.specs.Changes.{all_moved, has_room, moved_by, point_after, stood_at, without_run, AreApart, AreLayable, AreLiftable, AreTakable, CanStandEach};
ghost use Rattle.drawing_search.specs.Gains.{first_point, sketch_weight, IsField};
ghost use Rattle.drawing_search.specs.Lifting.{IsAttempted, IsOff, IsTaken, IsTriedFrom};
ghost use Rattle.drawing_search.specs.declared.group.Group.{Group as Groups};
ghost use Rattle.drawing_search.specs.Searched.{attempts_in, attempts_of};
ghost use Rattle.drawing_search.specs.Tries.{after_tries, AreAllLaid, IsRunLaid, IsSettled};

use crate::gains::Field;
use crate::group::{Group, Vector};
use crate::least::{LeastTurns, direction};
use crate::lifting::{Lifted, lift, put_back};
use crate::sketch::Sketch;
use line_chains::Chain;
use map_base::{NoMemory, NodeId};
use octi_grid::{GridPoint, Run, run_end};
use std::alloc::Global;

/// A search under way: the drawing, what it weighs, and how many attempts were made.
#[derive(Drop)]
pub(crate) struct Search {
    pub(crate) sketch: Sketch,
    pub(crate) weight: u64,
    pub(crate) made: u32,
}

impl Search {
    /// Makes the attempts of groups that make the drawing lighter, one after another, until so many were made in all.
    pub(crate) fn try_groups(
        &mut self,
        alloc: Global,
        field: Field<'_>,
        groups: &[Group],
        most: u32,
    ) -> Result<(), NoMemory>
        requires field { IsField field }
        requires settled { IsSettled (scale_of field.by) field.graph.now field.first.now self.old.sketch self.old.weight }
        requires fitting { All (IsFitting field.graph.now) (attempts_of groups.now) }
        requires apart { All (λ (g : Groups). AreApart g.nodes) groups.now }
        requires lengths { All (λ (g : Groups). g.lengths ≤ 4) groups.now }
        requires most { self.old.made ≤ most }
        ensures settled { OnOk result (IsSettled (scale_of field.entry.by) field.entry.graph.now field.entry.first.now self.new.sketch self.new.weight) }
        ensures tried { OnOk result (record { sketch = self.new.sketch; made = self.new.made } ≡ after_tries (scale_of field.entry.by) field.entry.graph.now field.entry.first.now most (attempts_of groups.now) (record { sketch = self.old.sketch; made = self.old.made })) }
    {
        for group in groups {
            self.try_group(alloc, field, group, most)?;
        }
        Ok(())
    }

    /// Makes the attempts of a group that make the drawing lighter, one after another, until so many were made in all.
    fn try_group(
        &mut self,
        alloc: Global,
        field: Field<'_>,
        group: &Group,
        most: u32,
    ) -> Result<(), NoMemory>
        requires field { IsField field }
        requires settled { IsSettled (scale_of field.by) field.graph.now field.first.now self.old.sketch self.old.weight }
        requires fitting { All (IsFitting field.graph.now) (attempts_in group.now) }
        requires apart { AreApart group.now.nodes }
        requires lengths { group.now.lengths ≤ 4 }
        requires most { self.old.made ≤ most }
        ensures settled { OnOk result (IsSettled (scale_of field.entry.by) field.entry.graph.now field.entry.first.now self.new.sketch self.new.weight) }
        ensures tried { OnOk result (record { sketch = self.new.sketch; made = self.new.made } ≡ after_tries (scale_of field.entry.by) field.entry.graph.now field.entry.first.now most (attempts_in group.now) (record { sketch = self.old.sketch; made = self.old.made })) }
    {
        let mut lifted = lift(alloc, field, &mut self.sketch, group, self.weight)?;
        for i in 0..vectors_of(group.lengths) {
            let vector = vector_of(group.lengths, i);
            lifted = self.try_vector(alloc, field, group, lifted, vector, most)?;
        }
        put_back(&mut self.sketch, lifted);
        Ok(())
    }

    /// Makes an attempt of a group, if that makes the drawing lighter and not so many were made before: what is off the board
    /// then.
    fn try_vector(
        &mut self,
        alloc: Global,
        field: Field<'_>,
        group: &Group,
        lifted: Lifted,
        vector: Vector,
        most: u32,
    ) -> Result<Lifted, NoMemory>
        requires field { IsField field }
        requires count { vector.count ≤ 8 }
        requires off { IsOff (scale_of field.by) field.graph.now field.first.now group.now lifted vector self.old.sketch self.old.weight }
        requires fitting { All (IsFitting field.graph.now) (attempts_in group.now) }
        requires most { self.old.made ≤ most }
        ensures { IfOk result (λ next. (whole : Drawn) → IsTaken (scale_of field.entry.by) field.entry.graph.now field.entry.first.now group.now most whole self.old.sketch self.old.weight self.old.made lifted
            → IsTriedFrom (scale_of field.entry.by) field.entry.graph.now field.entry.first.now group.now most vector whole self.old.made self.new.sketch self.new.weight self.new.made next) }
    {
        if self.made == most {
            return Ok(lifted);
        }
        match self.attempt(alloc, field, group, &lifted, vector)? {
            None => Ok(lifted),
            Some(weight) => {
                self.weight = weight;
                self.made += 1;
                lift(alloc, field, &mut self.sketch, group, weight)
            }
        }
    }

    /// Makes an attempt where what it changes was taken off the board: what the drawing then weighs, if that is less than
    /// it weighed before; else the board is as it was.
    fn attempt(
        &mut self,
        alloc: Global,
        field: Field<'_>,
        group: &Group,
        lifted: &Lifted,
        vector: Vector,
    ) -> Result<Option<u64>, NoMemory>
        requires field { IsField field }
        requires count { vector.count ≤ 8 }
        requires off { IsOff (scale_of field.by) field.graph.now field.first.now group.now lifted.now vector self.old.sketch self.old.weight }
        ensures attempted { IfOk result (IsAttempted (scale_of field.entry.by) field.entry.graph.now field.entry.first.now group.now lifted.now vector self.old.sketch self.old.weight self.new.sketch) }
        ensures weight { OnOk result (self.new.weight ≡ self.old.weight) }
        ensures made { OnOk result (self.new.made ≡ self.old.made) }
    {
        let runs = group.runs.as_slice();
        let moved = lifted.moved.as_slice();
        let least = lifted.least.as_slice();
        if !self.has_room(moved, vector) {
            return Ok(None);
        }
        let aparts = aparts_after(field, moved, vector);
        let base = lifted.rest + aparts;
        let ahead = self.least_gains(runs, least, moved, vector);
        let at_least = base.saturating_add(ahead);
        if at_least >= self.weight {
            return Ok(None);
        }
        self.stand_moved(moved, vector);
        match self.lay_all(alloc, field, runs, least, base, ahead)? {
            None => {
                self.lift_moved(field, moved);
                Ok(None)
            }
            Some(weight) => Ok(Some(weight)),
        }
    }

    /// Whether nodes that are off the board may move by a vector: each comes to a point of the board that is no other
    /// node's and no walk's.
    fn has_room(&self, moved: &[(NodeId, GridPoint)], vector: Vector) -> bool
        requires near { All (λ (m : NodeId × GridPoint). is_near 2000 m.1 ≡ true) moved.now }
        requires count { vector.count ≤ 8 }
        ensures { result ≡ has_room self.now.sketch vector moved.now }
    {
        for known in moved {
            if !self.sketch.is_open(after(known.1, vector)) {
                return false;
            }
        }
        true
    }

    /// What runs add at least where nodes have moved, as far as that is a number of 64 bits.
    fn least_gains(
        &self,
        runs: &[Chain],
        least: &[LeastTurns],
        moved: &[(NodeId, GridPoint)],
        vector: Vector,
    ) -> u64
        requires near { All (λ (m : NodeId × GridPoint). is_near 2000 m.1 ≡ true) moved.now }
        requires count { vector.count ≤ 8 }
        requires from { All (λ (c : Chain). c.from.0 < length self.now.sketch.points) runs.now }
        requires to { All (λ (c : Chain). (end_of c).0 < length self.now.sketch.points) runs.now }
        requires each { length least.now ≡ length runs.now }
        requires small { All IsSmallLeast least.now }
        ensures { result ≡ min (2 ^ 64 - 1) (gains_at_least (point_after self.now.sketch vector moved.now) runs.now least.now) }
    {
        let mut total = 0u64;
        for i in 0..runs.len() {
            let run = &runs[i];
            let from = self.point_after(run.from, moved, vector);
            let end = run.end();
            let to = self.point_after(end, moved, vector);
            let more = least[i].between(from, to);
            total = total.saturating_add(more);
        }
        total
    }

    /// Where a node stands once nodes have moved.
    fn point_after(&self, n: NodeId, moved: &[(NodeId, GridPoint)], vector: Vector) -> GridPoint
        requires node { n.0 < length self.now.sketch.points }
        requires near { All (λ (m : NodeId × GridPoint). is_near 2000 m.1 ≡ true) moved.now }
        requires count { vector.count ≤ 8 }
        ensures { result ≡ point_after self.now.sketch vector moved.now n }
    {
        for known in moved {
            if known.0.0 == n.0 {
                return after(known.1, vector);
            }
        }
        self.sketch.point(n)
    }

    /// Puts nodes that move on the board.
    fn stand_moved(&mut self, moved: &[(NodeId, GridPoint)], vector: Vector)
        requires near { All (λ (m : NodeId × GridPoint). is_near 2000 m.1 ≡ true) moved.now }
        requires count { vector.count ≤ 8 }
        requires can { CanStandEach self.old.sketch (all_moved vector moved.now) }
        ensures sketch { self.new.sketch ≡ fold stood_at self.old.sketch (all_moved vector moved.now) }
        ensures weight { self.new.weight ≡ self.old.weight }
        ensures made { self.new.made ≡ self.old.made }
    {
        for known in moved {
            self.sketch.stand(known.0, after(known.1, vector));
        }
    }

    /// Takes nodes that moved off the board.
    fn lift_moved(&mut self, field: Field<'_>, moved: &[(NodeId, GridPoint)])
        requires { AreLiftable field.graph.now self.old.sketch (map (λ (m : NodeId × GridPoint). m.0) moved.now) }
        ensures sketch { self.new.sketch ≡ fold lifted self.old.sketch (map (λ (m : NodeId × GridPoint). m.0) moved.now) }
        ensures weight { self.new.weight ≡ self.old.weight }
        ensures made { self.new.made ≡ self.old.made }
    {
        for known in moved {
            self.sketch.lift(field.graph, known.0);
        }
    }

    /// Lays runs one after another, where the rest weighs so much and the runs add at least so much together: what the
    /// drawing then weighs, if that is less than it weighed before; else none of them is left on the board.
    fn lay_all(
        &mut self,
        alloc: Global,
        field: Field<'_>,
        runs: &[Chain],
        least: &[LeastTurns],
        base: u64,
        ahead: u64,
    ) -> Result<Option<u64>, NoMemory>
        requires field { IsField field }
        requires runs { AreLayable field.graph.now self.old.sketch runs.now }
        requires base { base ≡ sketch_weight (scale_of field.by) field.graph.now field.first.now self.old.sketch }
        requires each { length least.now ≡ length runs.now }
        requires bounds { HaveBounds (scale_of field.by) field.graph.now self.old.sketch runs.now least.now }
        requires small { All IsSmallLeast least.now }
        requires ahead { ahead ≡ gains_at_least (λ (n : NodeId). point_of_node self.old.sketch n.0) runs.now least.now }
        requires less { base + ahead < self.old.weight }
        requires weight { self.old.weight ≤ 2 ^ 57 }
        ensures laid { IfOk result (AreAllLaid (scale_of field.entry.by) field.entry.graph.now field.entry.first.now self.old.weight runs.now self.old.sketch self.new.sketch) }
        ensures weight { OnOk result (self.new.weight ≡ self.old.weight) }
        ensures made { OnOk result (self.new.made ≡ self.old.made) }
    {
        let mut weight = base;
        let mut ahead = ahead;
        for i in 0..runs.len() {
            let run = &runs[i];
            ahead -= self.between_ends(run, least[i]);
            let Some(more) = self.lay_run(alloc, field, run, least[i], weight, ahead)? else {
                self.take_all(field, &runs[..i]);
                return Ok(None);
            };
            weight = more;
        }
        Ok(Some(weight))
    }

    /// What a run adds at least between its ends.
    fn between_ends(&self, run: &Chain, least: LeastTurns) -> u64
        requires from { run.now.from.0 < length self.now.sketch.points }
        requires to { (end_of run.now).0 < length self.now.sketch.points }
        requires small { IsSmallLeast least }
        ensures { result ≡ least_between least (point_of_node self.now.sketch run.now.from.0) (point_of_node self.now.sketch (end_of run.now).0) }
    {
        let from = self.sketch.point(run.from);
        let end = run.end();
        let to = self.sketch.point(end);
        least.between(from, to)
    }

    /// Lays a run where the rest weighs so much and other runs add at least so much: what the rest weighs with it, if the
    /// drawing can get lighter so; else the run is not left on the board.
    fn lay_run(
        &mut self,
        alloc: Global,
        field: Field<'_>,
        run: &Chain,
        least: LeastTurns,
        weight: u64,
        ahead: u64,
    ) -> Result<Option<u64>, NoMemory>
        requires field { IsField field }
        requires legal { IsLegalSketch field.graph.now self.old.sketch }
        requires run { IsRun field.graph.now run.now }
        requires free { IsFreeFor self.old.sketch run.now }
        requires bound { IsBoundOf (scale_of field.by) field.graph.now self.old.sketch run.now least }
        requires small { IsSmallLeast least }
        requires room { weight + least_between least (point_of_node self.old.sketch run.now.from.0) (point_of_node self.old.sketch (end_of run.now).0) + ahead < self.old.weight }
        requires limit { self.old.weight ≤ 2 ^ 57 }
        ensures laid { IfOk result (IsRunLaid (scale_of field.entry.by) field.entry.graph.now field.entry.first.now self.old.weight weight ahead run.now self.old.sketch self.new.sketch) }
        ensures weight { OnOk result (self.new.weight ≡ self.old.weight) }
        ensures made { OnOk result (self.new.made ≡ self.old.made) }
    {
        let from = self.sketch.point(run.from);
        let end = run.end();
        let to = self.sketch.point(end);
        let most = least.walk_limit(self.weight - 1 - weight - ahead, from, to);
        if !self.sketch.lay(alloc, field.graph, run, most)? {
            return Ok(None);
        }
        let gain = field.run_gain(&self.sketch, run);
        let more = weight + gain;
        let whole = more + ahead;
        if whole >= self.weight {
            self.sketch.take_run(field.graph, run);
            return Ok(None);
        }
        Ok(Some(more))
    }

    /// Takes runs away that were laid.
    fn take_all(&mut self, field: Field<'_>, runs: &[Chain])
        requires graph { IsConsistent field.graph.now }
        requires takable { AreTakable field.graph.now self.old.sketch runs.now }
        ensures sketch { self.new.sketch ≡ fold without_run self.old.sketch runs.now }
        ensures weight { self.new.weight ≡ self.old.weight }
        ensures made { self.new.made ≡ self.old.made }
    {
        for run in runs {
            self.sketch.take_run(field.graph, run);
        }
    }
}

/// What nodes weigh for their distances once they have moved.
fn aparts_after(field: Field<'_>, moved: &[(NodeId, GridPoint)], vector: Vector) -> u64
    requires field { IsField field }
    requires nodes { All (λ (m : NodeId × GridPoint). m.0.0 < length field.graph.now.kinds) moved.now }
    requires few { length moved.now ≤ 20000 }
    requires near { All (λ (m : NodeId × GridPoint). is_near 2000 m.1 ≡ true) moved.now }
    requires count { vector.count ≤ 8 }
    requires there { All (λ (m : NodeId × GridPoint). is_near 2000 (moved_by vector m.1) ≡ true) moved.now }
    ensures weight { result ≡ sum_by (λ (m : NodeId × GridPoint). apart_weight_by (scale_of field.entry.by) m.0.0 (first_point field.entry.first.now m.0.0) m.1) (all_moved vector moved.now) }
    ensures small { result ≤ 20000 * 2 ^ 32 }
{
    let mut total = 0;
    for known in moved {
        total += field.apart_weight(known.0, after(known.1, vector));
    }
    total
}

/// How many vectors of so many lengths are tried: one where nothing moves.
fn vectors_of(lengths: u32) -> u32
    requires { lengths ≤ 4 }
    ensures { result ≡ (if lengths == 0 then 1 else 8 * lengths) }
{
    if lengths == 0 { 1 } else { 8 * lengths }
}

/// The vector of a number: by length, and then clockwise from north.
fn vector_of(lengths: u32, i: u32) -> Vector
    requires lengths { lengths ≤ 4 }
    requires i { i < 32 }
    ensures dir { result.dir ≡ direction (i % 8) }
    ensures count { result.count ≡ (if lengths == 0 then 0 else 2 * (i / 8 + 1)) }
{
    let dir = direction((i % 8) as usize);
    if lengths == 0 {
        return Vector { dir, count: 0 };
    }
    Vector {
        dir,
        count: 2 * (i / 8 + 1),
    }
}

/// The point that a vector leads to.
fn after(p: GridPoint, vector: Vector) -> GridPoint
    requires near { is_near 2000 p ≡ true }
    requires count { vector.count ≤ 8 }
    ensures { result ≡ after p (replicate vector.count vector.dir) }
{
    run_end(
        p,
        Run {
            dir: vector.dir,
            count: vector.count,
        },
    )
}
