//! Pairs of segments over which lines go on.

ghost use Rattle.std.specs.Prelude.{◌≡◌, ◌<◌, ◌+◌, ◌++◌, ◌∷◌, [], if◌then◌else◌, length, map, slice_index_or, vec_items, IfOk, OnOk};
ghost use Rattle.graph_core.specs.Consistent.{AreSorted};
ghost use Rattle.drawing_weights.specs.Scales.{joined_pairs};
ghost use Rattle.drawing_search.specs.Gains.{is_followed};

use graph_core::{Join, LineGraph};
use map_base::{NoMemory, NodeId, SegId};
use std::alloc::Global;

/// The pairs of segments at each node that some line joins, each once.
#[derive(Drop)]
pub(crate) struct Pairs {
    held: Vec<Vec<(SegId, SegId)>>,
}

impl Pairs {
    /// The pairs of a graph.
    pub(crate) fn of(alloc: Global, graph: &LineGraph) -> Result<Pairs, NoMemory>
        ensures { IfOk result (λ pairs. map vec_items pairs.held.items ≡ map joined_pairs graph.now.joins) }
    {
        let mut held = Vec::with_capacity(alloc, graph.nodes() as usize)?;
        for n in 0..graph.nodes() {
            held.push(pairs_of(alloc, graph.joins(NodeId(n)))?)?;
        }
        Ok(Pairs { held })
    }

    /// The pairs at a node.
    pub(crate) fn at(&self, n: NodeId) -> &[(SegId, SegId)]
        requires { n.0 < length self.now.held.items }
        ensures { result.now ≡ slice_index_or (map vec_items self.now.held.items) n.0 [] }
    {
        &self.held[n.0 as usize]
    }
}

/// The pairs of segments that joins join, each once: joins of one pair are neighbours.
fn pairs_of(alloc: Global, joins: &[Join]) -> Result<Vec<(SegId, SegId)>, NoMemory>
    requires { AreSorted joins.now }
    ensures { IfOk result (λ pairs. pairs.items ≡ joined_pairs joins.now) }
{
    let mut pairs = Vec::new(alloc);
    for i in 0..joins.len() {
        push_pair(&mut pairs, joins[i], is_followed(joins, i))?;
    }
    Ok(pairs)
}

/// Lists the pair of a join, unless the next one has it too.
fn push_pair(pairs: &mut Vec<(SegId, SegId)>, join: Join, is_followed: bool) -> Result<(), NoMemory>
    ensures { OnOk result (pairs.new.items ≡ (if is_followed then pairs.old.items else pairs.old.items ++ (join.e, join.f) ∷ [])) }
{
    if !is_followed {
        pairs.push((join.e, join.f))?;
    }
    Ok(())
}

/// Whether the join behind a place joins the same segments.
fn is_followed(joins: &[Join], i: usize) -> bool
    requires { i < length joins.now }
    ensures { result ≡ is_followed joins.now i }
{
    match joins.get(i + 1) {
        None => false,
        Some(next) => next.e.0 == joins[i].e.0 && next.f.0 == joins[i].f.0,
    }
}
