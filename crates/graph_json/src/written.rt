//! The values that a graph file is written of.

ghost use Rattle.std.specs.Prelude.{◌≡◌, ◌<◌, length, map, IfOk};
ghost use Rattle.serde_json.specs.Data.{Data, object};
ghost use Rattle.serde_json.specs.View.{view};
ghost use Rattle.hex.specs.Hex.{encode_lower};
ghost use Rattle.graph_json.specs.Written.{feature_data, point_data, node_data, node_properties, segment_data, segment_properties, line_object, list_data, point_at};

use graph_core::{Join, LineGraph, NodeKind};
use map_base::{LineId, NodeId, Point, SegId};
use serde_json::{Value, json};
use std::alloc::{AllocError, Global};
use svg_writer::{Names, station_name};

/// What an element of a list is written as.
pub(crate) trait Datum: Drop {
    /// What is written, by definition.
    ghost datum: { Self → Data };

    fn value(&self, alloc: Global) -> Result<Value, AllocError>
        ensures { IfOk result (λ v. view v ≡ datum self.now) };
}

impl Datum for SegId {
    ghost use Rattle.graph_json.specs.Written.{seg_data};

    ghost datum = { seg_data };

    fn value(&self, _alloc: Global) -> Result<Value, AllocError> {
        Ok(Value::from(self.0))
    }
}

impl Datum for LineId {
    ghost use Rattle.graph_json.specs.Written.{line_number};

    ghost datum = { line_number };

    fn value(&self, _alloc: Global) -> Result<Value, AllocError> {
        Ok(Value::from(self.0))
    }
}

impl Datum for Join {
    ghost use Rattle.graph_json.specs.Written.{join_data};

    ghost datum = { join_data };

    fn value(&self, alloc: Global) -> Result<Value, AllocError> {
        json!(in alloc; [self.e.0, self.f.0, self.line.0])
    }
}

/// What is written of each, as a list.
fn list<T: Datum>(alloc: Global, items: &[T]) -> Result<Value, AllocError>
    ensures { IfOk result (λ v. view v ≡ list_data (map T.datum items.now)) }
{
    let mut values = Vec::with_capacity(alloc, items.len())?;
    for item in items {
        values.push(item.value(alloc)?)?;
    }
    Ok(Value::Array(values))
}

/// The coordinates of a point.
fn coordinates(alloc: Global, place: Point) -> Result<Value, AllocError>
    ensures { IfOk result (λ v. view v ≡ point_data place) }
{
    json!(in alloc; [place.x, place.y])
}

/// A feature of this geometry and these properties.
fn feature(
    alloc: Global,
    shape: &str,
    coordinates: Value,
    properties: Value,
) -> Result<Value, AllocError>
    ensures { IfOk result (λ v. view v ≡ feature_data shape.now (view coordinates) (view properties)) }
{
    json!(in alloc; {
        "geometry": {"coordinates": coordinates, "type": shape},
        "properties": properties,
        "type": "Feature"
    })
}

/// The properties of a node.
fn properties_of_node(
    alloc: Global,
    names: &Names,
    kind: NodeKind,
    joins: &[Join],
    round: &[SegId],
) -> Result<Value, AllocError>
    ensures { IfOk result (λ v. view v ≡ object (node_properties names.now kind joins.now round.now)) }
{
    let joins = list(alloc, joins)?;
    let round = list(alloc, round)?;
    match kind {
        NodeKind::Station(station) => {
            let name = station_name(names, station.0);
            json!(in alloc; {"joins": joins, "name": name, "round": round})
        }
        NodeKind::Junction => json!(in alloc; {"joins": joins, "round": round}),
    }
}

/// Node `n`.
pub(crate) fn node(
    alloc: Global,
    graph: &LineGraph,
    names: &Names,
    n: NodeId,
) -> Result<Value, AllocError>
    requires { n.0 < length graph.now.kinds }
    ensures { IfOk result (λ v. view v ≡ node_data graph.now names.now n.0) }
{
    let place = coordinates(alloc, graph.place(n))?;
    let properties = properties_of_node(
        alloc,
        names,
        graph.kind(n),
        graph.joins(n),
        graph.round(n),
    )?;
    feature(alloc, "Point", place, properties)
}

/// Where a node lies, the origin where there is no such node.
fn place_of(graph: &LineGraph, n: NodeId) -> Point
    ensures { result ≡ point_at graph.now.places n.0 }
{
    if n.0 < graph.nodes() {
        graph.place(n)
    } else {
        Point { x: 0, y: 0 }
    }
}

/// The properties of a segment.
fn properties_of_segment(
    alloc: Global,
    ends: (NodeId, NodeId),
    lines: &[LineId],
) -> Result<Value, AllocError>
    ensures { IfOk result (λ v. view v ≡ object (segment_properties ends lines.now)) }
{
    let (lower, upper) = ends;
    let lines = list(alloc, lines)?;
    json!(in alloc; {"ends": [lower.0, upper.0], "lines": lines})
}

/// Segment `s`.
pub(crate) fn segment(alloc: Global, graph: &LineGraph, s: SegId) -> Result<Value, AllocError>
    requires { s.0 < length graph.now.ends }
    ensures { IfOk result (λ v. view v ≡ segment_data graph.now s.0) }
{
    let (lower, upper) = graph.ends(s);
    let start = coordinates(alloc, place_of(graph, lower))?;
    let end = coordinates(alloc, place_of(graph, upper))?;
    let places = json!(in alloc; [start, end])?;
    let properties = properties_of_segment(alloc, (lower, upper), graph.lines(s))?;
    feature(alloc, "LineString", places, properties)
}

/// A line of this name, this colour (red, green and blue) and this importance.
pub(crate) fn line(
    alloc: Global,
    name: &str,
    colour: &[u8],
    importance: u32,
) -> Result<Value, AllocError>
    ensures { IfOk result (λ v. view v ≡ line_object name.now colour.now importance) }
{
    let colour = hex::encode(alloc, colour)?;
    json!(in alloc; {"colour": colour, "importance": importance, "name": name})
}
