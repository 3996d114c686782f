//! How much each line counts.

ghost use Rattle.std.specs.Prelude.{◌≡◌, ◌<◌, ◌^◌, length, map, All, IfOk, Ok};
ghost use Rattle.map_base.specs.Settings.{IsImportance};
ghost use Rattle.transit_feed.specs.declared.line.Line.{Line as FeedLine};
ghost use Rattle.line_graph.specs.Outcome.{graph_outcome};
ghost use Rattle.graph_maps.specs.Subjects.{AreListed};
ghost use Rattle.map_engine.specs.Tables.{importance_among, importance_by};

use graph_core::LineGraph;
use map_base::{NoMemory, Settings, Text};
use std::alloc::Global;
use transit_feed::{Line, Tables};

/// How much a crossing of each line counts, in the order of the lines: the number of the line's id in the settings, and
/// 1 where it has none.
pub fn importance_of(
    alloc: Global,
    tables: &Tables,
    settings: &Settings,
) -> Result<Vec<u32>, NoMemory>
    ensures { IfOk result (λ numbers. numbers.items ≡ importance_by tables.now settings.now) }
{
    importance_in(
        alloc,
        tables.lines.as_slice(),
        settings.importance.as_slice(),
    )
}

/// The numbers of `importance_of`, with what a map of the line graph asks of them.
pub(crate) fn line_numbers(
    alloc: Global,
    tables: &Tables,
    settings: &Settings,
    graph: &LineGraph,
) -> Result<Vec<u32>, NoMemory>
    requires { graph_outcome settings.now.near tables.now ≡ Ok graph.now }
    ensures value { IfOk result (λ numbers. numbers.items ≡ importance_by tables.now settings.now) }
    ensures range { IfOk result (λ numbers. All IsImportance numbers.items) }
    ensures lines { IfOk result (λ numbers. AreListed numbers.items graph.now) }
    ensures few { IfOk result (λ numbers. length numbers.items < 2 ^ 32) }
{
    // What is read of tables and settings tells their laws.
    let _lines = tables.lines.len();
    let _near = settings.near;
    let numbers = importance_of(alloc, tables, settings)?;
    Ok(numbers)
}

/// How much each line counts, by pairs of an id and a number.
fn importance_in(alloc: Global, lines: &[Line], pairs: &[(Text, u32)]) -> Result<Vec<u32>, NoMemory>
    ensures { IfOk result (λ numbers. numbers.items
        ≡ map (λ (l : FeedLine). importance_among pairs.now l.id) lines.now) }
{
    let mut numbers = Vec::with_capacity(alloc, lines.len())?;
    for line in lines {
        numbers.push(importance_among(pairs, line.id.as_str()))?;
    }
    Ok(numbers)
}

/// The number of an id among pairs, and 1 where it has none.
fn importance_among(pairs: &[(Text, u32)], id: &str) -> u32
    ensures { result ≡ importance_among pairs.now id.now }
{
    for pair in pairs {
        let other = pair.0.as_str();
        if other == id {
            return pair.1;
        }
    }
    1
}
