//! Runs that are laid anew.

ghost use Rattle.std.specs.Prelude.{◌≡◌, ◌<◌, ◌≤◌, ◌^◌, ◌++◌, [], None, Some, true, fold, length, IfOk, OnOk};
ghost use Rattle.std.specs.List.{list_all};
ghost use Rattle.graph_core.specs.Consistent.{IsConsistent};
ghost use Rattle.line_chains.specs.Chains.{end_of};
ghost use Rattle.octi_grid.specs.Legal.{is_even};
ghost use Rattle.grid_board.specs.Boards.{contains};
ghost use Rattle.walk_search.specs.Routes.{if_within};
ghost use Rattle.run_laying.specs.Attempts.{inner_nodes};
ghost use Rattle.run_laying.specs.Laying.{board_under, from_low, run_walk, with_piece};
ghost use Rattle.run_laying.specs.Pieces.{point_at};
ghost use Rattle.run_laying.specs.Runs.{IsRun};
ghost use Rattle.run_laying.specs.Sketches.{is_standing, lifted, walk_in, with_walk_of, IsFreeFor, IsLegalSketch};
ghost use Rattle.drawing_search.specs.Changes.{without_run, AreLiftable, IsTakable, StandsAfter};
ghost use Rattle.drawing_search.specs.Least.{ports_for};
ghost use Rattle.drawing_search.specs.Tracks.{piece_along, IsTrack};
ghost use Rattle.drawing_search.specs.Trying.{laid_within, IsLaid};

use crate::cutting::Track;
use crate::sketch::Sketch;
use graph_core::LineGraph;
use line_chains::{Chain, ChainStep};
use map_base::{NoMemory, NodeId, SegId};
use octi_grid::{Dir, Walk};
use segment_router::{allowed_ports, push_port};
use std::alloc::Global;
use walk_search::least_walk_within;

impl Sketch {
    /// Lays a run by the least free walk between its ends, if there is one that costs at most so much and has even points
    /// enough: each segment gets its piece, and the nodes between them stand where the pieces meet.
    pub(crate) fn lay(
        &mut self,
        alloc: Global,
        graph: &LineGraph,
        run: &Chain,
        most: u64,
    ) -> Result<bool, NoMemory>
        requires graph { IsConsistent graph.now }
        requires legal { IsLegalSketch graph.now self.old }
        requires run { IsRun graph.now run.now }
        requires free { IsFreeFor self.old run.now }
        requires most { most < 2 ^ 63 }
        ensures { IfOk result (λ is_laid. IsLaid (laid_within graph.now most run.now self.old) self.old self.new is_laid) }
    {
        let steps = run.steps.as_slice();
        let Some(walk) = self.run_walk(alloc, graph, run, most)? else {
            return Ok(false);
        };
        let track = Track::of(alloc, &walk)?;
        let Some(cuts) = track.cuts(alloc, steps.len())? else {
            return Ok(false);
        };
        let mut at = run.from;
        for i in 0..steps.len() {
            let is_inner = i + 1 < steps.len();
            self.lay_step(
                alloc,
                graph,
                at,
                steps[i],
                is_inner,
                &track,
                cuts[i],
                cuts[i + 1],
            )?;
            at = steps[i].to;
        }
        Ok(true)
    }

    /// Lays a step of a run from a node: its segment gets its piece of a walk, and the node to which it leads stands at the
    /// end of that, where it lies between the ends of the run.
    fn lay_step(
        &mut self,
        alloc: Global,
        graph: &LineGraph,
        from: NodeId,
        step: ChainStep,
        is_inner: bool,
        track: &Track,
        start: usize,
        end: usize,
    ) -> Result<(), NoMemory>
        requires segment { step.seg.0 < length graph.now.ends }
        requires node { step.to.0 < length graph.now.kinds }
        requires legal { IsLegalSketch graph.now self.old }
        requires free { walk_in self.old step.seg ≡ None }
        requires to { StandsAfter is_inner self.old step.to.0 (point_at track.now.points.items end) }
        requires track { IsTrack track.now.points.items track.now.steps.items }
        requires order { start < end }
        requires within { end ≤ length track.now.steps.items }
        requires inside { list_all (contains self.old.bounds) track.now.points.items ≡ true }
        requires even { is_even (point_at track.now.points.items end) ≡ true }
        ensures { OnOk result (self.new ≡ with_piece graph.now from step (piece_along track.now.points.items track.now.steps.items start end) self.old) }
    {
        self.lay_piece(alloc, graph, from, step.seg, track, start, end)?;
        if !is_inner {
            return Ok(());
        }
        self.stand(step.to, track.points[end]);
        Ok(())
    }

    /// Gives a segment its piece of a walk that comes from a node.
    fn lay_piece(
        &mut self,
        alloc: Global,
        graph: &LineGraph,
        from: NodeId,
        seg: SegId,
        track: &Track,
        start: usize,
        end: usize,
    ) -> Result<(), NoMemory>
        requires segment { seg.0 < length graph.now.ends }
        requires walks { length self.old.walks ≡ length graph.now.ends }
        requires free { walk_in self.old seg ≡ None }
        requires track { IsTrack track.now.points.items track.now.steps.items }
        requires order { start < end }
        requires within { end ≤ length track.now.steps.items }
        requires inside { list_all (contains self.old.bounds) track.now.points.items ≡ true }
        ensures { OnOk result (self.new ≡ with_walk_of self.old seg (Some (from_low graph.now seg from (piece_along track.now.points.items track.now.steps.items start end)))) }
    {
        let low = graph.ends(seg).0;
        let is_forward = low.0 == from.0;
        let piece = track.piece_by(alloc, start, end, is_forward)?;
        self.put_walk(seg, piece);
        Ok(())
    }

    /// The least free walk between the ends of a run, if there is one that costs at most so much.
    fn run_walk(
        &self,
        alloc: Global,
        graph: &LineGraph,
        run: &Chain,
        most: u64,
    ) -> Result<Option<Walk>, NoMemory>
        requires graph { IsConsistent graph.now }
        requires legal { IsLegalSketch graph.now self.now }
        requires run { IsRun graph.now run.now }
        requires from { is_standing self.now run.now.from.0 ≡ true }
        requires to { is_standing self.now (end_of run.now).0 ≡ true }
        requires most { most < 2 ^ 63 }
        ensures { IfOk result (λ walk. walk ≡ if_within most (run_walk graph.now (board_under self.now) run.now)) }
    {
        let steps = run.steps.as_slice();
        let last = steps[steps.len() - 1];
        let from_ports = self.ports_for(alloc, graph, run.from, steps[0].seg)?;
        let to_ports = self.ports_for(alloc, graph, last.to, last.seg)?;
        if from_ports == 0 || to_ports == 0 {
            return Ok(None);
        }
        let from = self.point(run.from);
        let to = self.point(last.to);
        least_walk_within(alloc, &self.board, from, from_ports, to, to_ports, most)
    }

    /// The ports that a segment may have at a node beside the walks that there are, as bits.
    pub(crate) fn ports_for(
        &self,
        alloc: Global,
        graph: &LineGraph,
        n: NodeId,
        seg: SegId,
    ) -> Result<u8, NoMemory>
        requires graph { IsConsistent graph.now }
        requires node { n.0 < length graph.now.kinds }
        requires walks { length self.now.walks ≡ length graph.now.ends }
        ensures { IfOk result (λ ports. ports ≡ ports_for graph.now self.now n.0 seg) }
    {
        let mut taken = Vec::new(alloc);
        for s in graph.round(n) {
            push_port(&mut taken, *s, self.port(graph, n, *s))?;
        }
        Ok(allowed_ports(graph, n, seg, &taken))
    }

    /// Takes a run away that was laid: its walks, and then the nodes between its ends.
    pub(crate) fn take_run(&mut self, graph: &LineGraph, run: &Chain)
        requires graph { IsConsistent graph.now }
        requires takable { IsTakable graph.now self.old run.now }
        ensures { self.new ≡ without_run self.old run.now }
    {
        let steps = run.steps.as_slice();
        for step in steps {
            self.take_walk(graph, step.seg);
        }
        self.lift_between(graph, steps);
    }

    /// Takes the nodes between the ends of steps off the board.
    fn lift_between(&mut self, graph: &LineGraph, steps: &[ChainStep])
        requires { AreLiftable graph.now self.old (inner_nodes steps.now) }
        ensures { self.new ≡ fold lifted self.old (inner_nodes steps.now) }
    {
        for i in 1..steps.len() {
            self.lift(graph, steps[i - 1].to);
        }
    }
}
