//! The lines that are on segments, for the legend.

ghost use Rattle.std.specs.Prelude.{◌≡◌, ◌<◌, ◌^◌, ◌||◌, ◌==◌, ◌++◌, ◌∷◌, [], if◌then◌else◌, ℕ, false, length, slice_index_or, IfErr, IfOk, OnOk};
ghost use Rattle.poster_rules.specs.Stations.{has_line};
ghost use Rattle.poster_rules.specs.Plans.{line_numbered, lines_shown, widest};
ghost use Rattle.poster_graph.specs.Flags.{flagged, is_on, AreFlags};

use graph_core::LineGraph;
use map_base::{LineId, NoMemory, SegId};
use name_widths::text_width;
use poster_plan::TextWidth;
use std::alloc::Global;
use svg_writer::{Names, name_of};

/// The lines that are on a segment, rising, of so many. More lines than can be numbered have no room.
pub fn lines_shown(alloc: Global, count: usize, graph: &LineGraph) -> Result<Vec<LineId>, NoMemory>
    ensures { IfOk result (λ lines. lines.items ≡ lines_shown count graph.now) }
{
    if count > 2_000_000_000 {
        return Err(NoMemory);
    }
    let flags = flags_of(alloc, count, graph)?;
    let lines = flagged(alloc, flags.as_slice())?;
    Ok(lines)
}

/// Which of so many lines are on a segment.
fn flags_of(alloc: Global, count: usize, graph: &LineGraph) -> Result<Vec<bool>, NoMemory>
    ensures { IfOk result (λ flags. AreFlags count (is_on graph.now.lines) flags.items) }
{
    // it tells that each segment has a list of lines
    let _nodes = graph.nodes();
    let mut flags = vec![in alloc; false; count]?;
    for s in 0..graph.segs() {
        show_lines(&mut flags, graph.lines(SegId(s)));
    }
    Ok(flags)
}

/// Flags these lines.
fn show_lines(flags: &mut [bool], lines: &[LineId])
    ensures each { length flags.new ≡ length flags.old }
    ensures flagged { (n : ℕ) → n < length flags.old → slice_index_or flags.new n false ≡ (slice_index_or flags.old n false || has_line (line_numbered n) lines.now) }
{
    for line in lines {
        show_line(flags, line.0);
    }
}

/// Flags a line, where it is one of those that have a flag.
fn show_line(flags: &mut [bool], line: u32)
    ensures each { length flags.new ≡ length flags.old }
    ensures flagged { (n : ℕ) → n < length flags.old → slice_index_or flags.new n false ≡ (slice_index_or flags.old n false || line == n) }
{
    if line as usize >= flags.len() {
        return;
    }
    flags[line as usize] = true;
}

/// The lines that are flagged, rising.
fn flagged(alloc: Global, flags: &[bool]) -> Result<Vec<LineId>, NoMemory>
    requires { length flags.now < 2 ^ 32 }
    ensures { IfOk result (λ lines. lines.items ≡ flagged flags.now) }
{
    let mut lines = Vec::new(alloc);
    for number in 0..flags.len() {
        put_flagged(&mut lines, number as u32, flags[number])?;
    }
    Ok(lines)
}

/// Appends the line of a number, where it is flagged.
fn put_flagged(lines: &mut Vec<LineId>, number: u32, flag: bool) -> Result<(), NoMemory>
    ensures { OnOk result (lines.new.items ≡ lines.old.items ++ (if flag then line_numbered number ∷ [] else [])) }
{
    if !flag {
        return Ok(());
    }
    lines.push(LineId(number))?;
    Ok(())
}

/// How wide the widest of the names of these lines is, at a size of 30 units. For more than can be reckoned with there is no
/// room.
pub fn widest(names: &Names, lines: &[LineId]) -> Result<TextWidth, NoMemory>
    ensures value { IfOk result (λ most. most ≡ widest names.now lines.now) }
    ensures room { IfErr result (λ _. 17179869184 < widest names.now lines.now) }
{
    let mut most: u64 = 0;
    for line in lines {
        let width = text_width(name_of(names, *line))?;
        most = most.max(3 * width);
    }
    let whole = TextWidth::of(most)?;
    Ok(whole)
}
