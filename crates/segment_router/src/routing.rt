//! Routes of segments, one after another.

ghost use Rattle.std.specs.Prelude.{◌≡◌, ◌<◌, ◌++◌, [], length, replicate, true, None, Ok, Err, Some, IfOk, OnOk, MatchResult, slice_index_or, if◌then◌else◌};
ghost use Rattle.std.specs.List.{filter_map, list_all};
ghost use Rattle.graph_core.specs.Consistent.{IsConsistent};
ghost use Rattle.octi_grid.specs.Legal.{is_even};
ghost use Rattle.octi_grid.specs.Walks.{end_port, start_port};
ghost use Rattle.grid_board.specs.Boards.{contains, empty_board, is_inside, parts_of, AreBounds};
ghost use Rattle.start_positions.specs.Homes.{grid_under};
ghost use Rattle.segment_router.specs.Orders.{routing_order};
ghost use Rattle.segment_router.specs.Routes.{end_at, node_point, none_routed, port_at_node, route_of, routes_from, with_nodes, with_route, with_settled};
ghost use Rattle.start_positions.specs.Homes.{IsPlacing};
ghost use Rattle.segment_router.specs.Underway.{known_ports, routed_of, with_known, GoesOn, IsUnderway};

use crate::ports::allowed_ports;
use graph_core::LineGraph;
use grid_board::{Board, Bounds};
use map_base::{NoMemory, NodeId, SegId};
use octi_grid::{Dir, GridPoint, Walk, end_of};
use start_positions::Placing;
use std::alloc::Global;
use walk_search::least_settled_walk;

/// Routing under way: the board with the nodes and the walks so far; of each node its point, and whether it is settled;
/// and of each segment its walk, if it has its route.
#[derive(Drop)]
pub(crate) struct Routing {
    pub(crate) board: Board,
    pub(crate) points: Vec<GridPoint>,
    pub(crate) settled: Vec<bool>,
    pub(crate) walks: Vec<Option<Walk>>,
}

/// The walks of all segments from a placing, one after another in the order of routing, or the first segment without a
/// route.
pub(crate) fn routes_from(
    alloc: Global,
    graph: &LineGraph,
    order: &[SegId],
    placing: &Placing,
) -> Result<Result<Vec<Walk>, SegId>, NoMemory>
    requires graph { IsConsistent graph.now }
    requires order { order.now ≡ routing_order graph.now.lines }
    requires placing { IsPlacing graph.now placing.now }
    ensures { IfOk result (λ outcome. MatchResult outcome (λ walks. routes_from graph.now placing.now ≡ Ok walks.items) (λ seg. routes_from graph.now placing.now ≡ Err seg)) }
{
    let grid = grid_under(placing);
    let mut routing = Routing::new(alloc, grid, placing.points.as_slice(), graph.segs())?;
    for seg in order {
        if !routing.route(alloc, graph, *seg)? {
            return Ok(Err(*seg));
        }
    }
    Ok(Ok(into_walks(alloc, routing.walks)?))
}

/// The grid of a placing.
fn grid_under(placing: &Placing) -> Bounds
    ensures { result ≡ grid_under placing.now }
{
    Bounds {
        left: placing.left,
        right: placing.right,
        bottom: placing.bottom,
        top: placing.top,
    }
}

impl Routing {
    /// Nothing is routed: each node is at home.
    fn new(
        alloc: Global,
        grid: Bounds,
        homes: &[GridPoint],
        segments: u32,
    ) -> Result<Routing, NoMemory>
        requires grid { AreBounds grid }
        requires even { list_all is_even homes.now ≡ true }
        requires inside { list_all (contains grid) homes.now ≡ true }
        ensures { IfOk result (λ r. routed_of r ≡ none_routed grid homes.now segments) }
    {
        Ok(Routing {
            board: board_with(alloc, grid, homes)?,
            points: homes.to_vec(alloc)?,
            settled: vec![in alloc; false; homes.len()]?,
            walks: no_walks(alloc, segments)?,
        })
    }

    /// Gives a segment its route, if it has one.
    pub(crate) fn route(
        &mut self,
        alloc: Global,
        graph: &LineGraph,
        seg: SegId,
    ) -> Result<bool, NoMemory>
        requires graph { IsConsistent graph.now }
        requires seg { seg.0 < length graph.now.ends }
        requires underway { IsUnderway graph.now (routed_of self.old) }
        ensures { IfOk result (GoesOn graph.now (routed_of self.old) seg (routed_of self.new)) }
    {
        match self.route_of(alloc, graph, seg)? {
            None => Ok(false),
            Some(walk) => {
                self.keep(graph, seg, walk);
                Ok(true)
            }
        }
    }

    /// The route of a segment.
    fn route_of(
        &self,
        alloc: Global,
        graph: &LineGraph,
        seg: SegId,
    ) -> Result<Option<Walk>, NoMemory>
        requires graph { IsConsistent graph.now }
        requires seg { seg.0 < length graph.now.ends }
        requires underway { IsUnderway graph.now (routed_of self.now) }
        ensures { IfOk result (λ walk. walk ≡ route_of graph.now (routed_of self.now) seg) }
    {
        let (low, up) = graph.ends(seg);
        let from_ports = self.ports_for(alloc, graph, low, seg)?;
        let to_ports = self.ports_for(alloc, graph, up, seg)?;
        if from_ports == 0 || to_ports == 0 {
            return Ok(None);
        }
        let from = low.0 as usize;
        let to = up.0 as usize;
        least_settled_walk(
            alloc,
            &self.board,
            self.points[from],
            !self.settled[from],
            from_ports,
            self.points[to],
            !self.settled[to],
            to_ports,
        )
    }

    /// The ports that a segment may have at a node, as bits.
    fn ports_for(
        &self,
        alloc: Global,
        graph: &LineGraph,
        n: NodeId,
        seg: SegId,
    ) -> Result<u8, NoMemory>
        requires graph { IsConsistent graph.now }
        requires node { n.0 < length graph.now.kinds }
        requires walks { length self.now.walks.items ≡ length graph.now.ends }
        ensures { IfOk result (λ mask. mask ≡ (end_at graph.now (routed_of self.now) seg n.0).ports) }
    {
        let taken = self.ports_at(alloc, graph, n)?;
        Ok(allowed_ports(graph, n, seg, &taken))
    }

    /// The ports round a node of the segments that have their routes.
    fn ports_at(
        &self,
        alloc: Global,
        graph: &LineGraph,
        n: NodeId,
    ) -> Result<Vec<(SegId, Dir)>, NoMemory>
        requires graph { IsConsistent graph.now }
        requires node { n.0 < length graph.now.kinds }
        requires walks { length self.now.walks.items ≡ length graph.now.ends }
        ensures { IfOk result (λ ports. ports.items ≡ known_ports (port_at_node graph.now (routed_of self.now) n.0) (slice_index_or graph.now.rounds n.0 [])) }
    {
        let mut ports = Vec::new(alloc);
        for s in graph.round(n) {
            push_port(&mut ports, *s, self.port_at(graph, n, *s))?;
        }
        Ok(ports)
    }

    /// The port of a segment at its end node, if it has its route.
    fn port_at(&self, graph: &LineGraph, n: NodeId, s: SegId) -> Option<Dir>
        requires seg { s.0 < length graph.now.ends }
        requires walks { length self.now.walks.items ≡ length graph.now.ends }
        ensures { result ≡ port_at_node graph.now (routed_of self.now) n.0 s }
    {
        match &self.walks[s.0 as usize] {
            None => None,
            Some(walk) => Some(port_of(walk, graph.ends(s).0 == n)),
        }
    }

    /// Keeps the route of a segment, and settles its nodes at the ends of it.
    fn keep(&mut self, graph: &LineGraph, seg: SegId, walk: Walk)
        requires graph { IsConsistent graph.now }
        requires seg { seg.0 < length graph.now.ends }
        requires underway { IsUnderway graph.now (routed_of self.old) }
        requires route { route_of graph.now (routed_of self.old) seg ≡ Some walk }
        ensures { routed_of self.new ≡ with_route graph.now (routed_of self.old) seg walk }
    {
        let (low, up) = graph.ends(seg);
        self.settle(low, walk.start());
        self.settle(up, end_of(&walk));
        self.board.add_walk(&walk);
        self.walks[seg.0 as usize] = Some(walk);
    }

    /// Settles a node at a point.
    fn settle(&mut self, n: NodeId, to: GridPoint)
        requires point { n.0 < length self.old.points.items }
        requires flag { n.0 < length self.old.settled.items }
        requires from_inside { is_inside (parts_of self.old.board) (node_point (routed_of self.old) n.0) ≡ true }
        requires to_inside { is_inside (parts_of self.old.board) to ≡ true }
        requires even { is_even to ≡ true }
        ensures { routed_of self.new ≡ with_settled (routed_of self.old) n.0 to }
    {
        let n = n.0 as usize;
        let from = self.points[n];
        self.board.move_node(from, to);
        self.points[n] = to;
        self.settled[n] = true;
    }
}

/// The port of a walk at its start or at its end.
pub fn port_of(walk: &Walk, at_start: bool) -> Dir
    ensures { (if at_start then start_port walk.now else end_port walk.now) ≡ Some result }
{
    if at_start {
        walk.start_port()
    } else {
        walk.end_port()
    }
}

/// A board with nodes at these points.
pub(crate) fn board_with(
    alloc: Global,
    grid: Bounds,
    homes: &[GridPoint],
) -> Result<Board, NoMemory>
    requires grid { AreBounds grid }
    requires even { list_all is_even homes.now ≡ true }
    requires inside { list_all (contains grid) homes.now ≡ true }
    ensures { IfOk result (λ board. parts_of board ≡ with_nodes (empty_board grid) homes.now) }
{
    let mut board = Board::new(alloc, grid.left, grid.right, grid.bottom, grid.top)?;
    for home in homes {
        board.add_node(*home);
    }
    Ok(board)
}

/// No segment has a walk.
pub fn no_walks(alloc: Global, segments: u32) -> Result<Vec<Option<Walk>>, NoMemory>
    ensures { IfOk result (λ walks. walks.items ≡ replicate segments None) }
{
    let mut walks = Vec::new(alloc);
    for _ in 0..segments {
        walks.push(None)?;
    }
    Ok(walks)
}

/// Lists the port of a segment, if it has one.
pub fn push_port(ports: &mut Vec<(SegId, Dir)>, s: SegId, port: Option<Dir>) -> Result<(), NoMemory>
    ensures { OnOk result (ports.new.items ≡ ports.old.items ++ with_known s port []) }
{
    if let Some(port) = port {
        ports.push((s, port))?;
    }
    Ok(())
}

/// The walks of the segments that have their routes.
pub fn into_walks(alloc: Global, walks: Vec<Option<Walk>>) -> Result<Vec<Walk>, NoMemory>
    ensures { IfOk result (λ kept. kept.items ≡ filter_map (λ w. w) walks.items) }
{
    let mut kept = Vec::new(alloc);
    for walk in walks {
        if let Some(walk) = walk {
            kept.push(walk)?;
        }
    }
    Ok(kept)
}
