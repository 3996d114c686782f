//! The graph that columns make, and what its stations are called.

ghost use Rattle.std.specs.Prelude.{◌≡◌, ◌≤◌, List, length, IfOk};
ghost use Rattle.graph_json.specs.declared.forms.Feature.{Feature};
ghost use Rattle.graph_json.specs.Columns.{AreColumns};
ghost use Rattle.graph_json.specs.Limits.{names_in};
ghost use Rattle.graph_json.specs.References.{kinds_from};
ghost use Rattle.graph_json.specs.Outcome.{graph_made};

use crate::columns::Columns;
use graph_core::{GraphParts, NodeKind};
use map_base::{NoMemory, Sequence, StationId, Text};
use std::alloc::Global;

/// The parts of a graph, the names of its stations in the order of its nodes, and of each feature whether it is a node.
#[derive(Drop)]
pub(crate) struct Made {
    pub parts: GraphParts,
    pub stations: Vec<Text>,
    pub are_nodes: Vec<bool>,
}

/// The graph that the columns of features make, and the names of its stations.
pub(crate) fn made_of(alloc: Global, columns: Columns) -> Result<Made, NoMemory>
    requires few { length columns.names.items ≤ 10000 }
    ensures parts { IfOk result (λ made. (features : List Feature) → AreColumns columns features → made.parts ≡ graph_made features) }
    ensures stations { IfOk result (λ made. made.stations.items ≡ names_in columns.names.items) }
    ensures are_nodes { IfOk result (λ made. made.are_nodes.items ≡ columns.are_nodes.items) }
{
    let Columns {
        names,
        places,
        rounds,
        joins,
        ends,
        lines,
        are_nodes,
    } = columns;
    let kinds = kinds_of(alloc, &names)?;
    Ok(Made {
        parts: GraphParts {
            kinds: Sequence::of(kinds),
            places: Sequence::of(places),
            ends: Sequence::of(ends),
            lines: Sequence::of(lines),
            rounds: Sequence::of(rounds),
            joins: Sequence::of(joins),
        },
        stations: stations_of(alloc, names)?,
        are_nodes,
    })
}

/// What nodes of these names are: one with a name is a station, the next one.
fn kinds_of(alloc: Global, names: &[Option<Text>]) -> Result<Vec<NodeKind>, NoMemory>
    requires few { length names.now ≤ 10000 }
    ensures { IfOk result (λ kinds. kinds.items ≡ kinds_from 0 names.now) }
{
    let mut kinds = Vec::with_capacity(alloc, names.len())?;
    let mut stations = 0;
    for name in names {
        if name.is_some() {
            kinds.push(NodeKind::Station(StationId(stations)))?;
            stations += 1;
        } else {
            kinds.push(NodeKind::Junction)?;
        }
    }
    Ok(kinds)
}

/// The names that are there.
#[tactic(auto, using(crate::proofs::Lists::name_more, crate::proofs::Lists::name_less))]
fn stations_of(alloc: Global, names: Vec<Option<Text>>) -> Result<Vec<Text>, NoMemory>
    ensures { IfOk result (λ stations. stations.items ≡ names_in names.items) }
{
    let mut stations = Vec::new(alloc);
    for name in names {
        if let Some(name) = name {
            stations.push(name)?;
        }
    }
    Ok(stations)
}
