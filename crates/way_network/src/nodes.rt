//! The nodes among the points of a network.

ghost use Rattle.std.specs.Prelude.{◌≡◌, ◌<◌, ◌++◌, ◌∷◌, [], ◌≤◌, ◌^◌, OnOk, IfOk, Bool, if◌then◌else◌, length, map};
ghost use Rattle.way_network.specs.Edges.{are_equal};
ghost use Rattle.way_network.specs.Uses.{has_number};
ghost use Rattle.way_network.specs.Nodes.{is_node_in, node_points_in, place_in, row_has_node};

use crate::edge_table::EdgeTable;
use crate::edges::UsedEdge;
use map_base::{LineId, NoMemory};
use std::alloc::Global;
use std::marker::Model;

/// Which points of a network are nodes: seen as how many points there are and the list of those that are nodes, in
/// order. A node's number is its place in that list. Beside the list stand a flag and a number for each point.
#[derive(Debug, Drop)]
pub struct Nodes {
    points: Vec<u32>,
    flags: Vec<bool>,
    places: Vec<u32>,
}

impl Model for Nodes {
    ghost use Rattle.std.specs.Prelude.{length};
    ghost use Rattle.way_network.specs.Nodes.{NodeTable, KeepsNodes};

    ghost Value = { NodeTable };

    ghost view = { λ n. record { points = length n.flags.items; nodes = n.points.items } };

    ghost invariant = { λ n. KeepsNodes (length n.flags.items) n.points.items n.flags.items n.places.items };
}

impl Nodes {
    /// The numbers of the points that are nodes, in order.
    pub fn points(&self) -> &[u32]
        ensures { result.now ≡ self.now.nodes }
    {
        self.points.as_slice()
    }

    /// Whether a point is a node.
    pub fn is_node(&self, p: u32) -> bool
        requires { p < self.now.points }
        ensures { result ≡ has_number self.now.nodes p }
    {
        self.flags[p as usize]
    }

    /// The number of the node at a point, and 0 where there is none.
    pub fn node_at(&self, p: u32) -> u32
        requires { p < self.now.points }
        ensures { result ≡ place_in self.now.nodes p }
    {
        self.places[p as usize]
    }
}

/// The nodes among the points of a table of used edges: the stations, which are the first `stations` points, and of
/// the other points on used edges all but those with exactly two used edges of equal lines.
pub(crate) fn nodes_of(alloc: Global, stations: u32, table: &EdgeTable) -> Result<Nodes, NoMemory>
    requires { length table.now ≤ 2 ^ 32 }
    ensures { IfOk result (λ nodes. nodes ≡ record { points = length table.now; nodes = node_points_in stations table.now }) }
{
    let count = table.len();
    let mut points = Vec::new(alloc);
    let mut flags = Vec::with_capacity(alloc, count)?;
    let mut places = Vec::with_capacity(alloc, count)?;
    for k in 0..count {
        let p = k as u32;
        let is_node = is_node(table, stations, p);
        flags.push(is_node)?;
        places.push(number_if(points.len(), is_node))?;
        put_if(&mut points, p, is_node)?;
    }
    Ok(Nodes {
        points,
        flags,
        places,
    })
}

fn number_if(count: usize, is_node: bool) -> u32
    requires { count < 2 ^ 32 }
    ensures { result ≡ (if is_node then count else 0) }
{
    if is_node { count as u32 } else { 0 }
}

fn put_if(points: &mut Vec<u32>, p: u32, is_node: bool) -> Result<(), NoMemory>
    ensures { OnOk result (points.new.items ≡ points.old.items ++ (if is_node then p ∷ [] else [])) }
{
    if is_node {
        points.push(p)?;
    }
    Ok(())
}

/// Whether a point is a node.
fn is_node(table: &EdgeTable, stations: u32, p: u32) -> bool
    requires { p < length table.now }
    ensures { result ≡ is_node_in stations table.now p }
{
    if p < stations {
        return true;
    }
    row_has_node(table.row(p))
}

/// Whether a point that is no station is a node by its used edges.
fn row_has_node(row: &[UsedEdge]) -> bool
    ensures { result ≡ row_has_node row.now }
{
    match row {
        [] => false,
        [x, y] => !have_equal_lines(x.lines.as_slice(), y.lines.as_slice()),
        _ => true,
    }
}

fn have_equal_lines(a: &[LineId], b: &[LineId]) -> bool
    ensures { result ≡ are_equal (map (λ line. line.0) a.now) (map (λ line. line.0) b.now) }
{
    a == b
}
