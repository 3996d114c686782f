//! The lines that stand on segments.

ghost use Rattle.std.specs.Prelude.{◌≡◌, ◌<◌, ◌^◌, true, length, map, filter, All, IfOk, slice_set};
ghost use Rattle.map_base.specs.declared.ids.LineId.{LineId as Line};
ghost use Rattle.graph_core.specs.Consistent.{IsConsistent};
ghost use Rattle.graph_maps.specs.DrawnLines.{after_lines, after_segments, marked_lines};
ghost use Rattle.graph_maps.specs.Certificates.{drawn_lines, is_weighty, weighed_line};

use graph_core::LineGraph;
use map_base::{LineId, NoMemory, SegId};
use std::alloc::Global;

/// How many lines there are, by how much each counts.
pub(crate) fn line_total(importance: &[u32]) -> u32
    requires { length importance.now < 2 ^ 32 }
    ensures { result ≡ length importance.now }
{
    importance.len() as u32
}

/// Of so many lines those that stand on segments of a graph, rising.
pub(crate) fn drawn_lines(
    alloc: Global,
    graph: &LineGraph,
    count: u32,
) -> Result<Vec<LineId>, NoMemory>
    requires fits { IsConsistent graph.now }
    requires below { All (All (λ (a : Line). a.0 < count)) graph.now.lines }
    ensures { IfOk result (λ lines. lines.items ≡ drawn_lines count graph.now) }
{
    let mut marks = vec![in alloc; false; count as usize]?;
    mark_segments(&mut marks, graph);
    marked_lines(alloc, marks.as_slice())
}

/// Marks the lines of all segments of a graph.
fn mark_segments(marks: &mut Vec<bool>, graph: &LineGraph)
    requires fits { IsConsistent graph.now }
    requires below { All (All (λ (a : Line). a.0 < length marks.old.items)) graph.now.lines }
    ensures { marks.new.items ≡ after_segments graph.now.lines marks.old.items }
{
    for s in 0..graph.segs() {
        mark_lines(marks, graph.lines(SegId(s)));
    }
}

/// Marks these lines.
fn mark_lines(marks: &mut Vec<bool>, lines: &[LineId])
    requires { All (λ (a : Line). a.0 < length marks.old.items) lines.now }
    ensures { marks.new.items ≡ after_lines lines.now marks.old.items }
{
    for line in lines {
        mark_line(marks, *line);
    }
}

/// Marks a line.
fn mark_line(marks: &mut Vec<bool>, line: LineId)
    requires { line.0 < length marks.old.items }
    ensures { marks.new.items ≡ slice_set marks.old.items line.0 true }
{
    marks[line.0 as usize] = true;
}

/// The lines that are marked, rising.
fn marked_lines(alloc: Global, marks: &[bool]) -> Result<Vec<LineId>, NoMemory>
    requires { length marks.now < 2 ^ 32 }
    ensures { IfOk result (λ lines. lines.items ≡ marked_lines 0 marks.now) }
{
    let mut lines = Vec::new(alloc);
    for (n, mark) in marks.iter().enumerate() {
        if *mark {
            lines.push(LineId(n as u32))?;
        }
    }
    Ok(lines)
}

/// Of these lines those that count more than 1, each with its number.
pub(crate) fn weighty_lines(
    alloc: Global,
    lines: &[LineId],
    importance: &[u32],
) -> Result<Vec<(LineId, u32)>, NoMemory>
    requires { All (λ (a : Line). a.0 < length importance.now) lines.now }
    ensures { IfOk result (λ pairs. pairs.items ≡ filter is_weighty (map (weighed_line importance.now) lines.now)) }
{
    let mut pairs = Vec::new(alloc);
    for line in lines {
        let number = importance[line.0 as usize];
        if number > 1 {
            pairs.push((*line, number))?;
        }
    }
    Ok(pairs)
}
