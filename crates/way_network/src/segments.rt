//! Segments: the chains between two nodes, each from its lower to its upper node.

ghost use Rattle.std.specs.Prelude.{◌≡◌, ◌<◌, ◌-◌, ◌++◌, [], ◌∷◌, length, filter, vec_len, All, IfOk, slice_index};
ghost use Rattle.way_network.specs.Segments.{last_of};
ghost use Rattle.way_network.specs.Rows.{walked_from, row_chains, all_chains, rises_from, AreEdgesOver, AreKnown};

use crate::around::around;
use crate::chains::chain_from;
use crate::edge_table::EdgeTable;
use crate::nodes::Nodes;
use map_base::{NoMemory, Point, Sequence};
use std::alloc::Global;

/// The chains that rise, node by node, those of one node clockwise from north.
pub(crate) fn chains_of(
    alloc: Global,
    points: &[Point],
    table: &EdgeTable,
    nodes: &Nodes,
) -> Result<Vec<Sequence<u32>>, NoMemory>
    requires edges { AreEdgesOver points.now table.now }
    requires points { nodes.now.points ≡ length table.now }
    requires nodes { All (λ p. p < length table.now) nodes.now.nodes }
    ensures { IfOk result (λ chains. chains.items ≡ all_chains points.now table.now nodes.now.nodes) }
{
    let mut chains = Vec::new(alloc);
    for node in nodes.points() {
        push_rising(alloc, points, table, nodes, *node, &mut chains)?;
    }
    Ok(chains)
}

/// Adds the chains that begin at a node and end at a higher one.
fn push_rising(
    alloc: Global,
    points: &[Point],
    table: &EdgeTable,
    nodes: &Nodes,
    node: u32,
    chains: &mut Vec<Sequence<u32>>,
) -> Result<(), NoMemory>
    requires edges { AreEdgesOver points.now table.now }
    requires points { nodes.now.points ≡ length table.now }
    requires node { node < length table.now }
    ensures { IfOk result (λ _. chains.new.items ≡ chains.old.items ++ row_chains points.now table.now nodes.now.nodes node) }
{
    let order = around(alloc, points, node, table.row(node))?;
    for next in order.as_slice() {
        push_where_rising(alloc, table, nodes, node, *next, chains)?;
    }
    Ok(())
}

/// Adds the chain from a node over an edge if it ends at a higher node.
fn push_where_rising(
    alloc: Global,
    table: &EdgeTable,
    nodes: &Nodes,
    node: u32,
    next: u32,
    chains: &mut Vec<Sequence<u32>>,
) -> Result<(), NoMemory>
    requires points { nodes.now.points ≡ length table.now }
    requires known { AreKnown table.now }
    requires next { next < length table.now }
    ensures { IfOk result (λ _. chains.new.items ≡ chains.old.items ++ filter (rises_from node) (walked_from table.now nodes.now.nodes node next ∷ [])) }
{
    let chain = chain_from(alloc, table, nodes, node, next)?;
    if node < last_of(chain.as_slice()) {
        chains.push(Sequence::of(chain))?;
    }
    Ok(())
}

/// The last point of a chain, or 0 where it has none.
pub(crate) fn last_of(chain: &[u32]) -> u32
    ensures { result ≡ last_of chain.now }
{
    point_of(chain, chain.len().saturating_sub(1))
}

/// The point at a place of a chain, or 0 past its end.
fn point_of(chain: &[u32], place: usize) -> u32
    ensures { result ≡ slice_index chain.now place }
{
    match chain.get(place) {
        None => 0,
        Some(point) => *point,
    }
}
