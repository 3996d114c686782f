//! A small graph.

ghost use Rattle.std.specs.Prelude.{◌≡◌, [], IfOk, length};
ghost use Rattle.walk_tests.specs.Graphs.{only, only_line, row};

use graph_core::{GraphParts, Join, LineGraph, NodeKind};
use map_base::{LineId, NodeId, Point, SegId, Sequence, StationId};
use std::alloc::{AllocError, Global};

/// Three stations in a row, and one line from the first over the second to the third.
pub(crate) fn three_in_a_row(alloc: Global) -> Result<LineGraph, AllocError>
    ensures { IfOk result (λ graph. length graph.ends ≡ 2) }
{
    let parts = row(alloc)?;
    Ok(LineGraph::new(parts))
}

/// The parts of the three stations in a row.
fn row(alloc: Global) -> Result<GraphParts, AllocError>
    ensures { IfOk result (λ parts. parts ≡ row) }
{
    let kinds = vec![in alloc;
        NodeKind::Station(StationId(0)),
        NodeKind::Station(StationId(1)),
        NodeKind::Station(StationId(2)),
    ]?;
    let places = vec![in alloc;
        Point { x: 0, y: 0 },
        Point { x: 3200, y: 400 },
        Point { x: 6400, y: 0 },
    ]?;
    let ends = vec![in alloc; (NodeId(0), NodeId(1)), (NodeId(1), NodeId(2))]?;
    let first_line = only_line(alloc)?;
    let second_line = only_line(alloc)?;
    let lines = vec![in alloc; first_line, second_line]?;
    let left = only(alloc, 0)?;
    let middle = Sequence::of(vec![in alloc; SegId(0), SegId(1)]?);
    let right = only(alloc, 1)?;
    let rounds = vec![in alloc; left, middle, right]?;
    let goes_on = Join {
        e: SegId(0),
        f: SegId(1),
        line: LineId(0),
    };
    let through = Sequence::of(vec![in alloc; goes_on]?);
    let none = no_joins(alloc);
    let none_too = no_joins(alloc);
    let joins = vec![in alloc; none, through, none_too]?;
    Ok(GraphParts {
        kinds: Sequence::of(kinds),
        places: Sequence::of(places),
        ends: Sequence::of(ends),
        lines: Sequence::of(lines),
        rounds: Sequence::of(rounds),
        joins: Sequence::of(joins),
    })
}

/// One line.
fn only_line(alloc: Global) -> Result<Sequence<LineId>, AllocError>
    ensures { IfOk result (λ lines. lines ≡ only_line) }
{
    Ok(Sequence::of(vec![in alloc; LineId(0)]?))
}

/// One segment.
fn only(alloc: Global, s: u32) -> Result<Sequence<SegId>, AllocError>
    ensures { IfOk result (λ round. round ≡ only s) }
{
    Ok(Sequence::of(vec![in alloc; SegId(s)]?))
}

/// No joins.
fn no_joins(alloc: Global) -> Sequence<Join>
    ensures { result ≡ [] }
{
    Sequence::of(Vec::new(alloc))
}
