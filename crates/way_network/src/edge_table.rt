//! The used edges of each point.

ghost use Rattle.std.specs.Prelude.{◌≡◌, ◌<◌, ◌==◌, IfOk, All, map, length, find, option_copied};
ghost use Rattle.std.specs.List.Sorted.{IsSortedBy};
ghost use Rattle.map_base.specs.declared.ids.LineId.{LineId};
ghost use Rattle.way_network.specs.declared.way.Way.{Way};
ghost use Rattle.way_network.specs.declared.edge_use.EdgeUse.{EdgeUse};
ghost use Rattle.way_network.specs.declared.edges.UsedEdge.{UsedEdge};
ghost use Rattle.way_network.specs.Tables.{edge_table, row_at};
ghost use Rattle.way_network.specs.Segments.{line_numbered};
ghost use Rattle.way_network.specs.Uses.{AreThose, IsRising, IsRowOf, is_run_by, leads_to, line_numbers, use_is_before};

use crate::edge_use::{EdgeUse, uses_in_order};
use crate::edges::UsedEdge;
use crate::ranks::{uses_from, uses_over};
use crate::way::Way;
use map_base::{LineId, NoMemory, Sequence};
use std::alloc::Global;
use std::marker::Model;

/// The used edges of a network, seen as a list for each point: its used edges, rising by their other points.
#[derive(Debug, Drop)]
pub struct EdgeTable {
    rows: Vec<Sequence<UsedEdge>>,
}

impl Model for EdgeTable {
    ghost use Rattle.std.specs.Prelude.{List, All};
    ghost use Rattle.way_network.specs.declared.edges.UsedEdge.{UsedEdge};
    ghost use Rattle.way_network.specs.Uses.{IsRising};

    ghost Value = { List (List UsedEdge) };

    ghost view = { λ t. t.rows.items };

    ghost invariant = { λ t. All IsRising t.rows.items };
}

impl EdgeTable {
    /// How many points it has rows for.
    pub fn len(&self) -> usize
        ensures { result ≡ length self.now }
    {
        self.rows.len()
    }

    /// The used edges of point `p`, rising by their other points.
    pub fn row(&self, p: u32) -> &[UsedEdge]
        requires { p < length self.now }
        ensures value { result.now ≡ row_at self.now p }
        ensures rising { IsRising result.now }
    {
        self.rows[p as usize].as_slice()
    }

    /// The used edge from `p` to `q`.
    pub fn edge_to(&self, p: u32, q: u32) -> Option<&UsedEdge>
        requires { p < length self.now }
        ensures { option_copied result ≡ find (λ edge. edge.to == q) (row_at self.now p) }
    {
        edge_in(self.row(p), q)
    }
}

/// The edge of a row that leads to `q`.
fn edge_in(row: &[UsedEdge], q: u32) -> Option<&UsedEdge>
    requires { IsRising row.now }
    ensures { option_copied result ≡ find (λ edge. edge.to == q) row.now }
{
    match row.binary_search_by_key(&q, |edge| edge.to) {
        Ok(place) => Some(&row[place]),
        Err(_) => None,
    }
}

/// The used edges of these ways. The numbers of points are below `points`, those of lines below `lines`. It takes n
/// log n for n points of all ways.
pub(crate) fn edge_table(
    alloc: Global,
    points: u32,
    lines: u32,
    ways: &[Way],
) -> Result<EdgeTable, NoMemory>
    requires known { All (λ way. All (λ p. p < points) way.points) ways.now }
    requires known_lines { All (λ way. way.line.0 < lines) ways.now }
    ensures { IfOk result (λ table. table ≡ edge_table (record { stations = 0; points = points; lines = lines; ways = ways.now })) }
{
    let uses = uses_in_order(alloc, ways)?;
    let mut rows = Vec::with_capacity(alloc, points as usize)?;
    for p in 0..points {
        rows.push(row_of(alloc, &uses, p)?)?;
    }
    Ok(EdgeTable { rows })
}

/// The points to which the used edges of point `p` lead, rising.
fn neighbours(alloc: Global, uses: &[EdgeUse], p: u32) -> Result<Vec<u32>, NoMemory>
    requires { IsSortedBy use_is_before uses.now }
    ensures { IfOk result (λ numbers. AreThose (leads_to uses.now p) numbers.items) }
{
    let mut numbers = Vec::new(alloc);
    for u in uses_from(uses, p) {
        numbers.push(u.to)?;
    }
    numbers.dedup();
    Ok(numbers)
}

/// The lines of the edge from `p` to `q`, rising.
fn numbers_of_lines(alloc: Global, uses: &[EdgeUse], p: u32, q: u32) -> Result<Vec<u32>, NoMemory>
    requires { IsSortedBy use_is_before uses.now }
    ensures { IfOk result (λ numbers. AreThose (is_run_by uses.now p q) numbers.items) }
{
    let mut numbers = Vec::new(alloc);
    for u in uses_over(uses, p, q) {
        numbers.push(u.line)?;
    }
    numbers.dedup();
    Ok(numbers)
}

fn lines_numbered(alloc: Global, numbers: &[u32]) -> Result<Vec<LineId>, NoMemory>
    ensures { IfOk result (λ lines. lines.items ≡ map line_numbered numbers.now) }
{
    let mut lines = Vec::with_capacity(alloc, numbers.len())?;
    for number in numbers {
        lines.push(LineId(*number))?;
    }
    Ok(lines)
}

fn edge_over(alloc: Global, uses: &[EdgeUse], p: u32, q: u32) -> Result<UsedEdge, NoMemory>
    requires { IsSortedBy use_is_before uses.now }
    ensures to { IfOk result (λ edge. edge.to ≡ q) }
    ensures lines { IfOk result (λ edge. AreThose (is_run_by uses.now p q) (line_numbers edge)) }
{
    let numbers = numbers_of_lines(alloc, uses, p, q)?;
    let lines = lines_numbered(alloc, &numbers)?;
    Ok(UsedEdge {
        to: q,
        lines: Sequence::of(lines),
    })
}

/// The used edges of point `p`, rising by their other points.
fn row_of(alloc: Global, uses: &[EdgeUse], p: u32) -> Result<Sequence<UsedEdge>, NoMemory>
    requires { IsSortedBy use_is_before uses.now }
    ensures { IfOk result (λ row. IsRowOf uses.now p row) }
{
    let others = neighbours(alloc, uses, p)?;
    let mut row = Vec::with_capacity(alloc, others.len())?;
    for q in &others {
        row.push(edge_over(alloc, uses, p, *q)?)?;
    }
    Ok(Sequence::of(row))
}
