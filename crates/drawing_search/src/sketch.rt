//! Drawings in the making.

ghost use Rattle.std.specs.Prelude.{◌≡◌, ◌<◌, fold, if◌then◌else◌, is_some, length, replicate, slice_index_or, slice_set, IfOk, None, Some, false, true};
ghost use Rattle.std.specs.List.{list_all, list_any};
ghost use Rattle.line_chains.specs.Chains.{round_of};
ghost use Rattle.graph_core.specs.Consistent.{IsConsistent};
ghost use Rattle.octi_grid.specs.Legal.{is_even};
ghost use Rattle.octi_grid.specs.Walks.{points_of};
ghost use Rattle.grid_board.specs.Boards.{contains, AreBounds};
ghost use Rattle.grid_board.specs.Points.{is_near};
ghost use Rattle.segment_router.specs.Routes.{port_at_node};
ghost use Rattle.run_laying.specs.Laying.{board_under};
ghost use Rattle.run_laying.specs.Sketches.{is_standing, lifted, point_of_node, stood, walk_in, with_walk_of, IsLegalSketch};
ghost use Rattle.drawing_search.specs.Changes.{is_open, stood_at, CanStandEach};
ghost use Rattle.drawing_search.specs.Shown.{bare_sketch};
ghost use Rattle.drawing_search.specs.Trying.{walks_of};

use graph_core::LineGraph;
use grid_board::{Board, Bounds};
use map_base::{NoMemory, NodeId, SegId};
use octi_grid::{Dir, GridPoint, Walk};
use segment_router::{into_walks, no_walks, port_of};
use std::alloc::Global;
use std::marker::Model;

/// A drawing in the making: the board, with the nodes that stand and the walks that there are; the point of each node, and
/// whether it stands there; and the walk of each segment, where it has one.
#[derive(Drop)]
pub(crate) struct Sketch {
    pub(crate) board: Board,
    pub(crate) points: Vec<GridPoint>,
    pub(crate) stand: Vec<bool>,
    pub(crate) walks: Vec<Option<Walk>>,
}

impl Model for Sketch {
    ghost use Rattle.std.specs.Prelude.{◌≡◌};
    ghost use Rattle.grid_board.specs.Boards.{parts_of};
    ghost use Rattle.run_laying.specs.Laying.{board_of, Sketch as Drawn};
    ghost use Rattle.drawing_search.specs.Shown.{sketch_of};

    ghost Value = { Drawn };

    ghost view = { λ s. sketch_of s.board s.points.items s.stand.items s.walks.items };

    ghost invariant = { λ s. parts_of s.board ≡ board_of (sketch_of s.board s.points.items s.stand.items s.walks.items) };
}

impl Sketch {
    /// Nodes with their points, of which none stands yet, and so many segments without walks.
    pub(crate) fn empty(
        alloc: Global,
        bounds: Bounds,
        points: &[GridPoint],
        segments: u32,
    ) -> Result<Sketch, NoMemory>
        requires { AreBounds bounds }
        ensures { IfOk result (λ sketch. sketch ≡ bare_sketch bounds points.now segments) }
    {
        let board = Board::new(alloc, bounds.left, bounds.right, bounds.bottom, bounds.top)?;
        let stand = vec![in alloc; false; points.len()]?;
        let points = points.to_vec(alloc)?;
        let walks = no_walks(alloc, segments)?;
        Ok(Sketch {
            board,
            points,
            stand,
            walks,
        })
    }

    /// The walks that there are.
    pub(crate) fn into_walks(self, alloc: Global) -> Result<Vec<Walk>, NoMemory>
        ensures { IfOk result (λ walks. walks.items ≡ walks_of self) }
    {
        into_walks(alloc, self.walks)
    }

    /// Where a node stands, or stood last.
    pub(crate) fn point(&self, n: NodeId) -> GridPoint
        requires { n.0 < length self.now.points }
        ensures { result ≡ point_of_node self.now n.0 }
    {
        self.points[n.0 as usize]
    }

    /// Whether a point lies on the board, and no node and no walk has it.
    pub(crate) fn is_open(&self, p: GridPoint) -> bool
        requires { is_near 3000 p ≡ true }
        ensures { result ≡ is_open self.now p }
    {
        if !self.board.bounds().contains(p) {
            return false;
        }
        if self.board.is_node(p) {
            return false;
        }
        !self.board.is_taken(p.doubled())
    }

    /// Puts a node that doesn't stand on a point.
    pub(crate) fn stand(&mut self, n: NodeId, at: GridPoint)
        requires node { n.0 < length self.old.points }
        requires flag { n.0 < length self.old.stand }
        requires lifted { is_standing self.old n.0 ≡ false }
        requires inside { contains self.old.bounds at ≡ true }
        requires even { is_even at ≡ true }
        ensures { self.new ≡ stood self.old n at }
    {
        self.board.add_node(at);
        self.points[n.0 as usize] = at;
        self.stand[n.0 as usize] = true;
    }

    /// Puts nodes that don't stand on their points.
    pub(crate) fn stand_each(&mut self, known: &[(NodeId, GridPoint)])
        requires { CanStandEach self.old known.now }
        ensures { self.new ≡ fold stood_at self.old known.now }
    {
        for at in known {
            self.stand(at.0, at.1);
        }
    }

    /// Takes a node off the board.
    pub(crate) fn lift(&mut self, graph: &LineGraph, n: NodeId)
        requires legal { IsLegalSketch graph.now self.old }
        requires stands { is_standing self.old n.0 ≡ true }
        ensures { self.new ≡ lifted self.old n }
    {
        let at = self.point(n);
        self.board.remove_node(at);
        self.stand[n.0 as usize] = false;
    }

    /// Gives a segment that has no walk one.
    pub(crate) fn put_walk(&mut self, s: SegId, walk: Walk)
        requires segment { s.0 < length self.old.walks }
        requires free { walk_in self.old s ≡ None }
        requires inside { list_all (contains self.old.bounds) (points_of walk) ≡ true }
        ensures { self.new ≡ with_walk_of self.old s (Some walk) }
    {
        self.board.add_walk(&walk);
        self.walks[s.0 as usize] = Some(walk);
    }

    /// Takes the walk of a segment off the board, if it has one.
    pub(crate) fn take_walk(&mut self, graph: &LineGraph, s: SegId) -> Option<Walk>
        requires graph { IsConsistent graph.now }
        requires legal { IsLegalSketch graph.now self.old }
        requires segment { s.0 < length graph.now.ends }
        ensures walk { result ≡ walk_in self.old s }
        ensures rest { self.new ≡ with_walk_of self.old s None }
    {
        let walk = take_at(&mut self.walks, s)?;
        let (low, up) = graph.ends(s);
        let keeps_start = has_walk_at(&self.walks, graph, low);
        let keeps_end = has_walk_at(&self.walks, graph, up);
        self.board.remove_walk(&walk, keeps_start, keeps_end);
        Some(walk)
    }

    /// The port of a segment at an end node, if it has a walk.
    pub(crate) fn port(&self, graph: &LineGraph, n: NodeId, s: SegId) -> Option<Dir>
        requires segment { s.0 < length graph.now.ends }
        requires walks { length self.now.walks ≡ length graph.now.ends }
        ensures { result ≡ port_at_node graph.now (board_under self.now) n.0 s }
    {
        match &self.walks[s.0 as usize] {
            None => None,
            Some(walk) => Some(port_of(walk, graph.ends(s).0 == n)),
        }
    }
}

/// Takes the walk of a segment out of these, if it has one.
fn take_at(walks: &mut Vec<Option<Walk>>, s: SegId) -> Option<Walk>
    requires { s.0 < length walks.old.items }
    ensures walk { result ≡ slice_index_or walks.old.items s.0 None }
    ensures rest { walks.new.items ≡ slice_set walks.old.items s.0 None }
{
    walks[s.0 as usize].take()
}

/// Whether a segment at a node has one of these walks.
fn has_walk_at(walks: &[Option<Walk>], graph: &LineGraph, n: NodeId) -> bool
    requires graph { IsConsistent graph.now }
    requires node { n.0 < length graph.now.kinds }
    requires walks { length walks.now ≡ length graph.now.ends }
    ensures { result ≡ list_any (λ t. is_some (slice_index_or walks.now t.0 None)) (round_of graph.now n) }
{
    for s in graph.round(n) {
        if walks[s.0 as usize].is_some() {
            return true;
        }
    }
    false
}
