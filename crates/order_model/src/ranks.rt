//! The ranks of lines among rising lines.

ghost use Rattle.std.specs.Prelude.{◌≡◌, ◌<◌, ◌≤◌, length, Contains};
ghost use Rattle.graph_core.specs.Consistent.{AreRising};
ghost use Rattle.order_model.specs.Places.{place_of};

use map_base::LineId;

/// How many of these lines stand before this one, if it is one of them; else some number below their count.
pub(crate) fn rank(lines: &[LineId], line: LineId) -> usize
    requires rising { AreRising lines.now }
    requires some { 0 < length lines.now }
    ensures within { result < length lines.now }
    ensures place { Contains lines.now line → result ≡ place_of lines.now line }
{
    let (mut low, mut high) = range_of(lines, line);
    while high - low > 1 {
        let middle = low + (high - low) / 2;
        if lines[middle].0 <= line.0 {
            low = middle;
        } else {
            high = middle;
        }
    }
    low
}

/// Numbers around the count of lines before this one, if it is one of these: its least, and one above its most. Lines
/// rise by at least one each, so where they have no gaps the two are next to each other.
fn range_of(lines: &[LineId], line: LineId) -> (usize, usize)
    requires rising { AreRising lines.now }
    requires some { 0 < length lines.now }
    ensures order { result.0 < result.1 }
    ensures within { result.1 ≤ length lines.now }
    ensures least { Contains lines.now line → result.0 ≤ place_of lines.now line }
    ensures most { Contains lines.now line → place_of lines.now line < result.1 }
{
    let last = lines.len() - 1;
    let before = line.0.saturating_sub(lines[0].0) as usize;
    let after = lines[last].0.saturating_sub(line.0) as usize;
    (last.saturating_sub(after), last.min(before) + 1)
}
