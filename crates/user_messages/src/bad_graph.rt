//! A graph file that gives no graph.

use crate::files::missing;
use file_lookup::bytes_at;
use map_base::NoMemory;
use message_texts::{plain_up_to, quoted};
use run_status::GraphWhy;
use serde_json::Value;
use std::alloc::Global;
use std::rt::Files;

/// How many characters of an entry are shown.
const SHOWN: usize = 400;

/// How a line of a graph file is written.
const LINE: &str =
    "a line is as {\"colour\":\"e6194b\",\"importance\":1,\"name\":\"A\"}, its colour six hexadecimal \
    digits, its importance a whole number from 1 to 16";

/// How a node is written.
const NODE: &str =
    "a node has the geometry \"Point\" with two whole numbers from -300000000 to 300000000, written without a point, as \
    coordinates, and the properties round, joins and, if it is a station, name; round names each segment that ends there \
    once, joins are [e, f, line] with two segments of round that the line is on, e below f, and rise";

/// How a segment is written.
const SEGMENT: &str =
    "a segment has the geometry \"LineString\" and the properties ends and lines; ends are two nodes, \
    the lower first, lines rise and stand in the lines of the file";

/// How a feature begins that is neither.
const FEATURE: &str =
    "a feature has \"type\":\"Feature\", properties, and a geometry, \"Point\" of a node or \
    \"LineString\" of a segment";

/// The lines for a graph file that gives no graph for this reason.
pub(crate) fn bad_graph<R: Files + AllocGlobal>(
    rt: &R,
    path: &str,
    why: GraphWhy,
) -> Result<String, NoMemory> {
    if why == GraphWhy::Missing {
        return missing(rt, path);
    }
    let alloc = rt.alloc();
    let Some(bytes) = bytes_at(rt, path)? else {
        return Ok(String::new(alloc));
    };
    let shown = quoted(alloc, path.as_bytes())?;
    match Value::from_slice(alloc, bytes.as_slice()) {
        Ok(value) => in_value(alloc, shown.as_str(), &value, why),
        Err(error) if error.is_memory() => Err(NoMemory),
        Err(error) => Ok(format!(in alloc; "octimap: {shown} is no JSON: {error}\n")?),
    }
}

/// The lines for a value that gives no graph for this reason.
fn in_value(alloc: Global, shown: &str, value: &Value, why: GraphWhy) -> Result<String, NoMemory> {
    match why {
        GraphWhy::Missing | GraphWhy::Json => Ok(String::new(alloc)),
        GraphWhy::Whole => Ok(format!(in alloc;
            "octimap: {shown} is JSON, but no graph as `octimap export` writes it: an object with \
            \"type\":\"FeatureCollection\" and two arrays, \"features\" and \"lines\"\n"
        )?),
        GraphWhy::Line { index } => in_entry(alloc, shown, value, "lines", index),
        GraphWhy::Feature { index } => in_entry(alloc, shown, value, "features", index),
    }
}

/// The line for an entry of an array, which are counted from 0.
fn in_entry(
    alloc: Global,
    shown: &str,
    value: &Value,
    array: &str,
    index: u64,
) -> Result<String, NoMemory> {
    let Some(entry) = value
        .get(array)
        .and_then(|entries| entries.get(index as usize))
    else {
        return Ok(String::new(alloc));
    };
    let form = if array == "lines" {
        LINE
    } else {
        feature_form(entry)
    };
    let text = entry.to_string(alloc)?;
    let text = plain_up_to(alloc, text.as_str().as_bytes(), SHOWN)?;
    Ok(format!(in alloc;
        "octimap: {shown}, entry {index} of {array}, counted from 0: {text}: {form}\n"
    )?)
}

/// How a feature of such a geometry is written.
fn feature_form(feature: &Value) -> &'static str {
    let kind = feature
        .get("geometry")
        .and_then(|geometry| geometry.get("type"))
        .and_then(Value::as_str);
    match kind {
        Some(kind) if kind == "Point" => NODE,
        Some(kind) if kind == "LineString" => SEGMENT,
        _ => FEATURE,
    }
}
