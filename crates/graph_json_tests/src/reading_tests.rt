//! What graph files are read as.

use graph_json::{Imported, JsonFault, read_graph, write_graph};
use std::alloc::{AllocError, Global};
use std::test::Fail;

/// A line between two stations.
const ROW: &str = concat!(
    r#"{"features":[{"geometry":{"coordinates":[0,0],"type":"Point"},"properties":{"joins":[],"name":"X","round":[0]},"type":"Feature"},"#,
    r#"{"geometry":{"coordinates":[11132,0],"type":"Point"},"properties":{"joins":[],"name":"Y","round":[0]},"type":"Feature"},"#,
    r#"{"geometry":{"coordinates":[[0,0],[11132,0]],"type":"LineString"},"properties":{"ends":[0,1],"lines":[0]},"type":"Feature"}],"#,
    r#""lines":[{"colour":"e6194b","importance":1,"name":"A"}],"type":"FeatureCollection"}"#,
    "\n"
);

/// What a file is read as, in words.
fn told(alloc: Global, read: &Result<Imported, JsonFault>) -> Result<String, AllocError> {
    match read {
        Ok(_) => String::from_str(alloc, "read"),
        Err(JsonFault::Json) => String::from_str(alloc, "json"),
        Err(JsonFault::Whole) => String::from_str(alloc, "whole"),
        Err(JsonFault::Line { index }) => format!(in alloc; "line {index}"),
        Err(JsonFault::Feature { index }) => format!(in alloc; "feature {index}"),
        Err(JsonFault::Limit(limit)) => String::from_str(alloc, limit.what.name()),
        Err(JsonFault::NoMemory) => Err(AllocError),
    }
}

/// What the row is read as, with a first text in it changed into another.
fn changed(alloc: Global, old: &str, new: &str) -> Result<String, Fail> {
    let Some((front, back)) = ROW.split_once(old) else {
        return Err(Fail::from("the row has no such text"));
    };
    let text = format!(in alloc; "{front}{new}{back}")?;
    Ok(told(alloc, &read_graph(alloc, text.as_bytes()))?)
}

#[test]
fn a_row_is_read_and_written_again(rt: HostRuntime) -> Result<(), Fail> {
    let alloc = rt.alloc();
    let read = read_graph(alloc, ROW.as_bytes()).ok().ok_or("a graph")?;
    assert_eq!(rt; read.graph.nodes(), 2);
    assert_eq!(rt; read.graph.segs(), 1);
    let importance = read.importance.as_slice();
    let text = write_graph(alloc, &read.graph, &read.names, importance)?;
    assert_eq!(rt; text.as_slice(), ROW.as_bytes());
    Ok(())
}

/// A text of the row, what stands in its place, and what the file is read as then.
const CASES: [(&str, &str, &str); 46] = [
    ("\n", "\r\n\t ", "read"),
    ("\n", " x", "json"),
    ("\"FeatureCollection\"}", "\"FeatureCollection\"", "json"),
    ("{\"features\"", "\u{FEFF}{\"features\"", "json"),
    ("\"X\"", "\"\\ud800\"", "json"),
    ("\"importance\":1", "\"importance\":1e999", "json"),
    (
        "\"type\":\"FeatureCollection\"",
        "\"type\":\"collection\"",
        "whole",
    ),
    (",\"type\":\"FeatureCollection\"", "", "whole"),
    ("\"lines\":[{", "\"line\":[{", "whole"),
    ("\"lines\":[{", "\"more\":[1],\"lines\":[{", "read"),
    ("{\"features\"", "{\"features\":7,\"features\"", "read"),
    ("\"e6194b\"", "\"E6194B\"", "read"),
    ("\"e6194b\"", "\"e6194\"", "line 0"),
    ("\"e6194b\"", "\"e6194bb\"", "line 0"),
    ("\"e6194b\"", "\"#6194b\"", "line 0"),
    ("\"e6194b\"", "123456", "line 0"),
    ("\"importance\":1", "\"importance\":0", "line 0"),
    ("\"importance\":1", "\"importance\":16", "read"),
    ("\"importance\":1", "\"importance\":17", "line 0"),
    ("\"importance\":1", "\"importance\":1.0", "line 0"),
    ("\"name\":\"A\"", "\"name\":\"\"", "read"),
    ("\"name\":\"A\"", "\"name\":1", "line 0"),
    ("\"name\":\"A\"}", "\"name\":\"A\"},7", "line 1"),
    ("\"name\":\"X\"", "\"name\":null", "feature 0"),
    ("\"name\":\"X\",", "", "read"),
    ("[0,0]", "[0,0,0]", "feature 0"),
    ("[0,0]", "[0]", "feature 0"),
    ("[0,0]", "[-0,0]", "feature 0"),
    ("[0,0]", "[0,-300000000]", "read"),
    ("[0,0]", "[300000001,0]", "feature 0"),
    ("[11132,0]", "[10000000000000000000,0]", "feature 1"),
    ("\"Point\"", "\"Polygon\"", "feature 0"),
    ("[[0,0],[11132,0]]", "[\"a\",null]", "read"),
    ("[[0,0],[11132,0]]", "\"a\"", "feature 2"),
    ("\"ends\":[0,1]", "\"ends\":[1,0]", "feature 2"),
    ("\"ends\":[0,1]", "\"ends\":[0,4294967296]", "feature 2"),
    ("\"ends\":[0,1]", "\"ends\":[0,7]", "feature 1"),
    (
        "\"ends\":[0,1],\"lines\":[0]",
        "\"ends\":[0,1],\"lines\":[]",
        "feature 2",
    ),
    (
        "\"ends\":[0,1],\"lines\":[0]",
        "\"ends\":[0,1],\"lines\":[0,0]",
        "feature 2",
    ),
    (
        "\"ends\":[0,1],\"lines\":[0]",
        "\"ends\":[0,1],\"lines\":[1]",
        "feature 2",
    ),
    ("\"joins\":[]", "\"joins\":[[0,1]]", "feature 0"),
    ("\"joins\":[]", "\"joins\":[[0,1,0]]", "feature 0"),
    ("\"joins\":[]", "\"joins\":null", "feature 0"),
    ("\"round\":[0]", "\"round\":[]", "feature 0"),
    ("\"round\":[0]", "\"round\":[0,0]", "feature 0"),
    ("\"round\":[0]", "\"round\":[1]", "feature 0"),
];

#[test]
fn the_first_thing_that_is_wrong_is_named(rt: HostRuntime) -> Result<(), Fail> {
    let alloc = rt.alloc();
    for (old, new, answer) in CASES {
        let told = changed(alloc, old, new)?;
        assert_eq!(rt; told.as_str(), answer);
    }
    Ok(())
}

#[test]
fn a_deep_value_is_no_graph(rt: HostRuntime) -> Result<(), Fail> {
    let alloc = rt.alloc();
    for (depth, answer) in [(126, "whole"), (127, "json"), (100_000, "json")] {
        let mut text = String::new(alloc);
        text.push_str("{\"a\":")?;
        for _ in 0..depth {
            text.push_str("[")?;
        }
        for _ in 0..depth {
            text.push_str("]")?;
        }
        text.push_str("}")?;
        let told = told(alloc, &read_graph(alloc, text.as_bytes()))?;
        assert_eq!(rt; told.as_str(), answer);
    }
    Ok(())
}
