//! What a group of attempts takes off the board, and puts back.

ghost use Rattle.std.specs.Prelude.{◌≡◌, ◌++◌, fold, All, IfOk, OnOk};
ghost use Rattle.drawing_weights.specs.Scales.{scale_of};
ghost use Rattle.run_laying.specs.Attempts.{inner_nodes};
ghost use Rattle.run_laying.specs.Runs.{IsFitting};
ghost use Rattle.run_laying.specs.Sketches.{lifted as lifted_off};
ghost use Rattle.drawing_search.specs.Changes.{walked_by, without_run, AreApart, AreLiftable, CanWalkEach, IsTakable};
ghost use Rattle.drawing_search.specs.Gains.{IsField};
ghost use Rattle.drawing_search.specs.Lifting.{points_along, put_back, walks_along, CanPutBack, IsLifted};
ghost use Rattle.drawing_search.specs.Searched.{attempts_in};
ghost use Rattle.drawing_search.specs.Tries.{IsSettled};

use crate::gains::Field;
use crate::group::Group;
use crate::least::LeastTurns;
use crate::sketch::Sketch;
use line_chains::{Chain, ChainStep};
use map_base::{NoMemory, NodeId, SegId};
use octi_grid::{GridPoint, Walk};
use std::alloc::Global;

/// What was taken off the board: walks of segments, the points of nodes between ends of runs, and of nodes that move; and
/// what the rest weighs; and what each run adds at least beside it.
#[derive(Drop)]
pub(crate) struct Lifted {
    pub(crate) walks: Vec<(SegId, Walk)>,
    pub(crate) inner: Vec<(NodeId, GridPoint)>,
    pub(crate) moved: Vec<(NodeId, GridPoint)>,
    pub(crate) rest: u64,
    pub(crate) least: Vec<LeastTurns>,
}

/// Takes the runs of a group off the board, and the nodes that move, from a drawing of this weight.
pub(crate) fn lift(
    alloc: Global,
    field: Field<'_>,
    sketch: &mut Sketch,
    group: &Group,
    weight: u64,
) -> Result<Lifted, NoMemory>
    requires field { IsField field }
    requires settled { IsSettled (scale_of field.by) field.graph.now field.first.now sketch.old weight }
    requires fitting { All (IsFitting field.graph.now) (attempts_in group.now) }
    requires apart { AreApart group.now.nodes }
    ensures { IfOk result (IsLifted (scale_of field.entry.by) field.entry.graph.now field.entry.first.now group.now sketch.old sketch.new) }
{
    let runs = group.runs.as_slice();
    let nodes = group.nodes.as_slice();
    let mut lifted = Lifted {
        walks: Vec::new(alloc),
        inner: Vec::new(alloc),
        moved: Vec::new(alloc),
        rest: weight,
        least: Vec::new(alloc),
    };
    for run in runs {
        let gain = field.run_gain(sketch, run);
        let rest = lifted.rest - gain;
        lifted.rest = rest;
        lift_run(field, sketch, run, &mut lifted)?;
    }
    for n in nodes {
        let at = sketch.point(*n);
        let apart = field.apart_weight(*n, at);
        let left = lifted.rest - apart;
        lifted.rest = left;
        sketch.lift(field.graph, *n);
        lifted.moved.push((*n, at))?;
    }
    for chain in runs {
        let least = field.least_turns(alloc, sketch, chain)?;
        lifted.least.push(least)?;
    }
    Ok(lifted)
}

/// Takes a run off the board: its walks, and then the nodes between its ends.
fn lift_run(
    field: Field<'_>,
    sketch: &mut Sketch,
    run: &Chain,
    lifted: &mut Lifted,
) -> Result<(), NoMemory>
    requires field { IsField field }
    requires takable { IsTakable field.graph.now sketch.old run.now }
    ensures sketch { OnOk result (sketch.new ≡ without_run sketch.old run.now) }
    ensures walks { OnOk result (lifted.new.walks.items ≡ lifted.old.walks.items ++ walks_along sketch.old run.now.steps) }
    ensures inner { OnOk result (lifted.new.inner.items ≡ lifted.old.inner.items ++ points_along sketch.old run.now.steps) }
    ensures moved { OnOk result (lifted.new.moved.items ≡ lifted.old.moved.items) }
    ensures rest { OnOk result (lifted.new.rest ≡ lifted.old.rest) }
    ensures least { OnOk result (lifted.new.least.items ≡ lifted.old.least.items) }
{
    let steps = run.steps.as_slice();
    for step in steps {
        if let Some(walk) = sketch.take_walk(field.graph, step.seg) {
            lifted.walks.push((step.seg, walk))?;
        }
    }
    lift_between(field, sketch, steps, lifted)
}

/// Takes the nodes between the ends of steps off the board.
fn lift_between(
    field: Field<'_>,
    sketch: &mut Sketch,
    steps: &[ChainStep],
    lifted: &mut Lifted,
) -> Result<(), NoMemory>
    requires { AreLiftable field.graph.now sketch.old (inner_nodes steps.now) }
    ensures sketch { OnOk result (sketch.new ≡ fold lifted_off sketch.old (inner_nodes steps.now)) }
    ensures inner { OnOk result (lifted.new.inner.items ≡ lifted.old.inner.items ++ points_along sketch.old steps.now) }
    ensures walks { OnOk result (lifted.new.walks.items ≡ lifted.old.walks.items) }
    ensures moved { OnOk result (lifted.new.moved.items ≡ lifted.old.moved.items) }
    ensures rest { OnOk result (lifted.new.rest ≡ lifted.old.rest) }
    ensures least { OnOk result (lifted.new.least.items ≡ lifted.old.least.items) }
{
    for i in 1..steps.len() {
        let n = steps[i - 1].to;
        lifted.inner.push((n, sketch.point(n)))?;
        sketch.lift(field.graph, n);
    }
    Ok(())
}

/// Puts on the board what was taken off.
pub(crate) fn put_back(sketch: &mut Sketch, lifted: Lifted)
    requires { CanPutBack sketch.old lifted.moved.items lifted.inner.items lifted.walks.items }
    ensures { sketch.new ≡ put_back sketch.old lifted.moved.items lifted.inner.items lifted.walks.items }
{
    sketch.stand_each(&lifted.moved);
    sketch.stand_each(&lifted.inner);
    put_walks(sketch, lifted.walks);
}

/// Gives segments their walks again.
fn put_walks(sketch: &mut Sketch, walks: Vec<(SegId, Walk)>)
    requires { CanWalkEach sketch.old walks.items }
    ensures { sketch.new ≡ fold walked_by sketch.old walks.items }
{
    for (s, walk) in walks {
        sketch.put_walk(s, walk);
    }
}
