//! Reading a graph file.

ghost use Rattle.std.specs.Prelude.{◌≡◌, All, Ok, Some, map, IfOk};
ghost use Rattle.serde_json.specs.View.{view};
ghost use Rattle.graph_core.specs.Consistent.{IsConsistent};
ghost use Rattle.graph_json.specs.declared.forms.LineForm.{LineForm};
ghost use Rattle.graph_json.specs.Outcome.{Reads, ReadsValue, IsComplete, IsImportant, LiesNear, graph_outcome, without_feed, text_value, of_value, with_features, imported_with};

use crate::columns::columns_of;
use crate::entries::entries_of;
use crate::fault::JsonFault;
use crate::forms::{Feature, LineForm};
use crate::imported::Imported;
use crate::limits::limit_met;
use crate::made::{Made, made_of};
use crate::references::broken;
use crate::values::{array_of, is_text_at};
use graph_core::LineGraph;
use map_base::{NoMemory, Sequence, Text};
use serde_json::Value;
use std::alloc::Global;
use svg_writer::Names;

/// The graph of a file with these bytes, its names and importances, or the first thing that is wrong with it: the text,
/// the whole, a line, a feature by itself, a limit (lines on segments, stations, nodes, segments), and last a feature
/// whose references don't hold.
pub fn read_graph(alloc: Global, bytes: &[u8]) -> Result<Imported, JsonFault>
    ensures reads { Reads result (graph_outcome bytes.now) }
    ensures complete { IfOk result IsComplete }
{
    let value = text_value(alloc, without_feed(bytes))?;
    graph_of_value(alloc, &value)
}

/// The bytes without a line feed at their end.
fn without_feed(bytes: &[u8]) -> &[u8]
    ensures { result.now ≡ without_feed bytes.now }
{
    if bytes.is_empty() {
        return bytes;
    }
    let last = bytes.len() - 1;
    if bytes[last] == b'\n' {
        &bytes[..last]
    } else {
        bytes
    }
}

/// The value that a text is (RFC 8259).
#[tactic(auto, using(crate::proofs::Texts::of_text, crate::proofs::Texts::of_no_text))]
fn text_value(alloc: Global, text: &[u8]) -> Result<Value, JsonFault>
    ensures { ReadsValue result (text_value text.now) }
{
    match Value::from_slice(alloc, text) {
        Ok(value) => Ok(value),
        Err(fault) => {
            if fault.is_memory() {
                Err(JsonFault::NoMemory)
            } else {
                Err(JsonFault::Json)
            }
        }
    }
}

/// The graph that a value is.
fn graph_of_value(alloc: Global, value: &Value) -> Result<Imported, JsonFault>
    ensures reads { Reads result (of_value (Some (view value.now))) }
    ensures complete { IfOk result IsComplete }
{
    if !is_text_at(value, "type", "FeatureCollection") {
        return Err(JsonFault::Whole);
    }
    let Some(lines) = value.get("lines").and_then(array_of) else {
        return Err(JsonFault::Whole);
    };
    let Some(features) = value.get("features").and_then(array_of) else {
        return Err(JsonFault::Whole);
    };
    let lines = match entries_of::<LineForm>(alloc, lines)? {
        Ok(lines) => lines,
        Err(index) => return Err(JsonFault::Line { index }),
    };
    let features = match entries_of::<Feature>(alloc, features)? {
        Ok(features) => features,
        Err(index) => return Err(JsonFault::Feature { index }),
    };
    graph_with(alloc, lines, features)
}

/// The graph that features make with lines, or why there is none.
fn graph_with(
    alloc: Global,
    lines: Vec<LineForm>,
    features: Vec<Feature>,
) -> Result<Imported, JsonFault>
    requires lines { All IsImportant lines.items }
    requires features { All LiesNear features.items }
    ensures reads { Reads result (with_features lines.items (Ok features.items)) }
    ensures complete { IfOk result IsComplete }
{
    if 4_294_967_296 <= lines.len() {
        return Err(JsonFault::NoMemory);
    }
    let columns = columns_of(alloc, features)?;
    if let Some(limit) = limit_met(alloc, &columns.lines, &columns.names)? {
        return Err(JsonFault::Limit(limit));
    }
    let made = made_of(alloc, columns)?;
    if let Some(index) = broken(&made.parts, lines.len(), &made.are_nodes) {
        return Err(JsonFault::Feature { index });
    }
    Ok(with_names(alloc, lines, made)?)
}

/// What these lines and this graph make.
fn with_names(alloc: Global, lines: Vec<LineForm>, made: Made) -> Result<Imported, NoMemory>
    requires { IsConsistent made.parts }
    ensures { IfOk result (λ read. read ≡ imported_with lines.items made.parts made.stations.items) }
{
    let (names, importance) = named(alloc, lines)?;
    Ok(Imported {
        graph: LineGraph::new(made.parts),
        names: Names {
            stations: Sequence::of(made.stations),
            lines: Sequence::of(names),
        },
        importance: Sequence::of(importance),
    })
}

/// The names and colours of lines, and how important they are.
fn named(alloc: Global, lines: Vec<LineForm>) -> Result<(Vec<(Text, [u8; 3])>, Vec<u32>), NoMemory>
    ensures names { IfOk result (λ both. both.0.items ≡ map (λ (l : LineForm). (l.name, l.colour)) lines.items) }
    ensures importance { IfOk result (λ both. both.1.items ≡ map (λ (l : LineForm). l.importance) lines.items) }
{
    let mut names = Vec::new(alloc);
    let mut importance = Vec::new(alloc);
    for line in lines {
        let LineForm {
            name,
            colour,
            importance: number,
        } = line;
        names.push((name, colour))?;
        importance.push(number)?;
    }
    Ok((names, importance))
}
