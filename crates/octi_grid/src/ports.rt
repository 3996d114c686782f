//! The ports round a node.

ghost use Rattle.std.specs.Prelude.{◌≡◌, ◌<◌, ◌≤◌, length, take, slice_index_or, []};
ghost use Rattle.std.specs.List.{filter_map};
ghost use Rattle.graph_core.specs.Consistent.{IsConsistent};
ghost use Rattle.octi_grid.specs.Costs.{clockwise_from};
ghost use Rattle.octi_grid.specs.Legal.{are_clockwise, legs_of, port_of};
ghost use Rattle.octi_grid.specs.Sweeps.{sweep_on, sweep_over, sweep_past};

use crate::dir::Dir;
use crate::walk::Walk;
use graph_core::LineGraph;
use map_base::{NodeId, SegId};

/// A sweep over ports: the first of them, and how far clockwise from it the last one is.
#[derive(Clone, Copy, Debug, PartialEq, Eq)]
pub(crate) struct Sweep {
    pub(crate) first: Option<Dir>,
    pub(crate) furthest: u8,
}

impl Sweep {
    /// The sweep over one port more, if there is one; none where that is no further than the last one.
    fn past(self, port: Option<Dir>) -> Option<Sweep>
        ensures { result ≡ sweep_past self port }
    {
        match port {
            None => Some(self),
            Some(port) => self.over(port),
        }
    }

    /// The sweep over one port more; none where that is no further than the last one.
    fn over(self, port: Dir) -> Option<Sweep>
        ensures { result ≡ sweep_over self port }
    {
        match self.first {
            None => Some(Sweep {
                first: Some(port),
                furthest: 0,
            }),
            Some(first) => self.on(first, port),
        }
    }

    /// The sweep over one port more from a first port; none where that is no further than the last one.
    fn on(self, first: Dir, port: Dir) -> Option<Sweep>
        ensures { result ≡ sweep_on self.furthest first port }
    {
        let furthest = clockwise_from(first, port);
        if furthest <= self.furthest {
            return None;
        }
        Some(Sweep {
            first: Some(first),
            furthest,
        })
    }
}

/// How far clockwise one direction is from another, in parts of 45 degrees.
fn clockwise_from(a: Dir, b: Dir) -> u8
    ensures { result ≡ clockwise_from a b }
{
    (b.index() + 8 - a.index()) % 8
}

/// Whether the ports of the first walks round a node are distinct and in clockwise order of the round.
pub(crate) fn are_clockwise(graph: &LineGraph, walks: &[Walk], count: usize, n: NodeId) -> bool
    requires node { n.0 < length graph.now.kinds }
    requires count { count ≤ length walks.now }
    requires walks { length walks.now ≡ length graph.now.ends }
    ensures { result ≡ are_clockwise (filter_map (port_of (take count (legs_of graph.now.ends walks.now)) n.0) (slice_index_or graph.now.rounds n.0 [])) }
{
    let mut sweep = Sweep {
        first: None,
        furthest: 0,
    };
    for s in graph.round(n) {
        match sweep.past(port_at(graph, walks, count, *s, n)) {
            None => return false,
            Some(next) => sweep = next,
        }
    }
    true
}

/// The port of a segment at a node, if its walk is one of the first ones.
fn port_at(graph: &LineGraph, walks: &[Walk], count: usize, s: SegId, n: NodeId) -> Option<Dir>
    requires count { count ≤ length walks.now }
    requires walks { length walks.now ≡ length graph.now.ends }
    ensures { result ≡ port_of (take count (legs_of graph.now.ends walks.now)) n.0 s }
{
    if s.0 as usize >= count {
        return None;
    }
    let walk = &walks[s.0 as usize];
    if graph.ends(s).0 == n {
        Some(walk.start_port())
    } else {
        Some(walk.end_port())
    }
}
