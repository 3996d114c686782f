//! Features of a graph file, each by itself.

ghost use Rattle.std.specs.Prelude.{◌≡◌, codes, IfOk};
ghost use Rattle.serde_json.specs.Find.{get};
ghost use Rattle.serde_json.specs.View.{view};
ghost use Rattle.graph_json.specs.Forms.{feature_of, shaped, node_of, segment_of, place_of, join_of, ends_of, name_or_none};

use crate::entries::Entry;
use crate::forms::{Feature, NodeForm, SegmentForm};
use crate::values::{Form, array_of, coordinate_of, is_text_at, list_at, small_of};
use graph_core::Join;
use map_base::{LineId, NoMemory, NodeId, Point, SegId, Sequence, Text};
use serde_json::Value;
use std::alloc::Global;

impl Entry for Feature {
    ghost use Rattle.graph_json.specs.Forms.{feature_of};

    ghost entry = { feature_of };

    fn read(alloc: Global, value: &Value) -> Result<Option<Feature>, NoMemory> {
        feature_of(alloc, value)
    }
}

impl Form for SegId {
    ghost use Rattle.graph_json.specs.Forms.{seg_of};

    ghost form = { seg_of };

    fn of(value: &Value) -> Option<SegId> {
        Some(SegId(small_of(value)?))
    }
}

impl Form for LineId {
    ghost use Rattle.graph_json.specs.Forms.{line_id_of};

    ghost form = { line_id_of };

    fn of(value: &Value) -> Option<LineId> {
        Some(LineId(small_of(value)?))
    }
}

impl Form for Join {
    ghost use Rattle.graph_json.specs.Forms.{join_of};

    ghost form = { join_of };

    fn of(value: &Value) -> Option<Join> {
        join_of(value)
    }
}

/// A node or a segment.
fn feature_of(alloc: Global, value: &Value) -> Result<Option<Feature>, NoMemory>
    ensures { IfOk result (λ feature. feature ≡ feature_of (view value.now)) }
{
    if !is_text_at(value, "type", "Feature") {
        return Ok(None);
    }
    let Some(geometry) = value.get("geometry") else {
        return Ok(None);
    };
    let Some(properties) = value.get("properties") else {
        return Ok(None);
    };
    shaped(alloc, geometry, properties)
}

/// A node or a segment, by the type of its geometry.
fn shaped(alloc: Global, geometry: &Value, properties: &Value) -> Result<Option<Feature>, NoMemory>
    ensures { IfOk result (λ feature. feature ≡ shaped (view geometry.now) (view properties.now)) }
{
    if is_text_at(geometry, "type", "Point") {
        Ok(node_of(alloc, geometry, properties)?.map(Feature::Node))
    } else if is_text_at(geometry, "type", "LineString") {
        Ok(segment_of(alloc, geometry, properties)?.map(Feature::Segment))
    } else {
        Ok(None)
    }
}

/// A node, by its geometry and its properties.
fn node_of(
    alloc: Global,
    geometry: &Value,
    properties: &Value,
) -> Result<Option<NodeForm>, NoMemory>
    ensures { IfOk result (λ node. node ≡ node_of (view geometry.now) (view properties.now)) }
{
    let Some(place) = geometry.get("coordinates").and_then(place_of) else {
        return Ok(None);
    };
    let Some(name) = name_of(alloc, properties)? else {
        return Ok(None);
    };
    let Some(round) = list_at::<SegId>(alloc, properties, "round")? else {
        return Ok(None);
    };
    let Some(joins) = list_at::<Join>(alloc, properties, "joins")? else {
        return Ok(None);
    };
    Ok(Some(NodeForm {
        place,
        name,
        round: Sequence::of(round),
        joins: Sequence::of(joins),
    }))
}

/// Two coordinates, in decimetres.
fn place_of(value: &Value) -> Option<Point>
    ensures { result ≡ place_of (view value.now) }
{
    let [x, y] = array_of(value)? else {
        return None;
    };
    Some(Point {
        x: coordinate_of(x)?,
        y: coordinate_of(y)?,
    })
}

/// The name of a node, which a station alone has. None where it is no text.
fn name_of(alloc: Global, properties: &Value) -> Result<Option<Option<Text>>, NoMemory>
    ensures { IfOk result (λ name. name ≡ name_or_none (get (codes "name") (view properties.now))) }
{
    let Some(name) = properties.get("name") else {
        return Ok(Some(None));
    };
    let Some(name) = name.as_str() else {
        return Ok(None);
    };
    Ok(Some(Some(Text::of(alloc, name)?)))
}

/// A connection: the numbers of two segments and of a line.
fn join_of(value: &Value) -> Option<Join>
    ensures { result ≡ join_of (view value.now) }
{
    let [e, f, line] = array_of(value)? else {
        return None;
    };
    Some(Join {
        e: SegId(small_of(e)?),
        f: SegId(small_of(f)?),
        line: LineId(small_of(line)?),
    })
}

/// A segment, by its geometry and its properties. Its coordinates are any array.
fn segment_of(
    alloc: Global,
    geometry: &Value,
    properties: &Value,
) -> Result<Option<SegmentForm>, NoMemory>
    ensures { IfOk result (λ segment. segment ≡ segment_of (view geometry.now) (view properties.now)) }
{
    let Some(_) = geometry.get("coordinates").and_then(Value::as_array) else {
        return Ok(None);
    };
    let Some(ends) = properties.get("ends").and_then(ends_of) else {
        return Ok(None);
    };
    let Some(lines) = list_at::<LineId>(alloc, properties, "lines")? else {
        return Ok(None);
    };
    Ok(Some(SegmentForm {
        ends,
        lines: Sequence::of(lines),
    }))
}

/// The lower and the upper end of a segment.
fn ends_of(value: &Value) -> Option<(NodeId, NodeId)>
    ensures { result ≡ ends_of (view value.now) }
{
    let [lower, upper] = array_of(value)? else {
        return None;
    };
    Some((NodeId(small_of(lower)?), NodeId(small_of(upper)?)))
}
