//! Chains of used edges between nodes.

ghost use Rattle.std.specs.Prelude.{◌≡◌, ◌<◌, length, vec_len, All, IfOk};
ghost use Rattle.way_network.specs.Rows.{other_in, walked_from, AreKnown};

use crate::edge_table::EdgeTable;
use crate::edges::UsedEdge;
use crate::nodes::Nodes;
use map_base::NoMemory;
use std::alloc::Global;

/// The points of the chain from one point over its edge to another, up to the next node.
#[tactic(auto, using(crate::proofs::Walking::walk_more, crate::proofs::Walking::walk_all))]
pub(crate) fn chain_from(
    alloc: Global,
    table: &EdgeTable,
    nodes: &Nodes,
    from: u32,
    to: u32,
) -> Result<Vec<u32>, NoMemory>
    requires points { nodes.now.points ≡ length table.now }
    requires known { AreKnown table.now }
    requires to { to < length table.now }
    ensures { IfOk result (λ chain. chain.items ≡ walked_from table.now nodes.now.nodes from to) }
{
    let mut chain = Vec::new(alloc);
    chain.push(from)?;
    let mut last = from;
    let mut here = to;
    for _ in 0..table.len() {
        chain.push(here)?;
        if nodes.is_node(here) {
            return Ok(chain);
        }
        let next = other_end(table.row(here), last, here);
        last = here;
        here = next;
    }
    chain.push(here)?;
    Ok(chain)
}

/// Where the first edge leads that does not lead back, or the point itself where there is none.
#[tactic(auto, using(std::proofs::lemmas::List::at_drop_more, crate::proofs::Walking::other_in_known))]
fn other_end(row: &[UsedEdge], from: u32, here: u32) -> u32
    ensures { result ≡ other_in row.now from here }
{
    for edge in row {
        if edge.to != from {
            return edge.to;
        }
    }
    here
}
