//! Passages at nodes, told by segments.

ghost use Rattle.std.specs.Prelude.{◌≡◌, ◌<◌, ◌++◌, [], ◌∷◌, IfOk, OnOk, All, map, filter};
ghost use Rattle.way_network.specs.declared.way.Passage.{Passage};
ghost use Rattle.way_network.specs.Crossings.{crossing_of, is_passage_at};

use crate::joins::Crossing;
use crate::nodes::Nodes;
use crate::numbers::Segments;
use crate::way::Passage;
use map_base::NoMemory;
use std::alloc::Global;

/// The crossings that passages at nodes are. Passages at points that are no nodes are passed over.
pub(crate) fn crossings_of(
    alloc: Global,
    passages: &[Passage],
    nodes: &Nodes,
    segments: &Segments,
) -> Result<Vec<Crossing>, NoMemory>
    requires { All (λ x. x.at < nodes.now.points) passages.now }
    ensures { IfOk result (λ crossings. crossings.items ≡ map (crossing_of segments.now) (filter (is_passage_at nodes.now.nodes) passages.now)) }
{
    let mut crossings = Vec::new(alloc);
    for x in passages {
        put_passage(&mut crossings, *x, nodes, segments)?;
    }
    Ok(crossings)
}

fn put_passage(
    crossings: &mut Vec<Crossing>,
    x: Passage,
    nodes: &Nodes,
    segments: &Segments,
) -> Result<(), NoMemory>
    requires { x.at < nodes.now.points }
    ensures { OnOk result (crossings.new.items ≡ crossings.old.items ++ map (crossing_of segments.now) (filter (is_passage_at nodes.now.nodes) (x ∷ []))) }
{
    if nodes.is_node(x.at) {
        crossings.push(crossing_of(segments, x))?;
    }
    Ok(())
}

fn crossing_of(segments: &Segments, x: Passage) -> Crossing
    ensures { result ≡ crossing_of segments.now x }
{
    Crossing {
        at: x.at,
        e: segments.leaving(x.at, x.from).0,
        f: segments.leaving(x.at, x.to).0,
        line: x.line.0,
    }
}
