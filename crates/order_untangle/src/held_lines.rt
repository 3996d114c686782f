//! Which lines of a segment can't stand before which others.

ghost use Rattle.std.specs.Prelude.{◌≡◌, ◌<◌, ◌^◌, ◌||◌, ◌==◌, IfOk, true, length, map, not};
ghost use Rattle.std.specs.List.{list_all};
ghost use Rattle.graph_core.specs.Consistent.{AreRising};
ghost use Rattle.order_model.specs.Places.{has_line};
ghost use Rattle.order_sums.specs.declared.pair_sums.PairSums.{PairSums};
ghost use Rattle.order_sums.specs.PairSums.{each_parts, sums_part};
ghost use Rattle.order_sums.specs.PairTables.{AreSized, IsTable, lists_of};
ghost use Rattle.order_untangle.specs.Segments.{rows_of};

use map_base::{LineId, NoMemory};
use order_rules::has_line;
use order_sums::{PairSums, place_of, row_at};
use std::alloc::Global;

/// For each line of a segment which lines hold it: itself, and those that can't stand before it. These are the table of
/// the segment, its lines, and the greatest weight of Aparts.
pub(crate) fn held_rows(
    alloc: Global,
    table: &[Vec<PairSums>],
    lines: &[LineId],
    most: u64,
) -> Result<Vec<Vec<bool>>, NoMemory>
    requires sized { AreSized lines.now (lists_of table.now) }
    requires most { most < 2 ^ 63 }
    ensures { IfOk result (λ rows. (w : LineId → LineId → PairSums) → IsTable w lines.now (lists_of table.now)
        → rows_of rows.items ≡ map (λ b. map (λ a. a.0 == b.0 || not (sums_part most (w b a).against_turned (w b a).sides)) lines.now) lines.now) }
{
    let mut rows = Vec::with_capacity(alloc, lines.len())?;
    for i in 0..lines.len() {
        let held = held_row(alloc, row_at(table, i), lines, lines[i], most)?;
        rows.push(held)?;
    }
    Ok(rows)
}

/// Which lines hold one line, by its sums with each.
fn held_row(
    alloc: Global,
    row: &[PairSums],
    lines: &[LineId],
    line: LineId,
    most: u64,
) -> Result<Vec<bool>, NoMemory>
    requires row { length row.now ≡ length lines.now }
    requires most { most < 2 ^ 63 }
    ensures { IfOk result (λ held. (f : LineId → PairSums) → row.now ≡ map f lines.now
        → held.items ≡ map (λ a. a.0 == line.0 || not (sums_part most (f a).against_turned (f a).sides)) lines.now) }
{
    let mut held = Vec::with_capacity(alloc, lines.len())?;
    for i in 0..lines.len() {
        held.push(is_held(row[i], lines[i], line, most))?;
    }
    Ok(held)
}

/// Whether a line is another one, or that one can't stand before it; the sums are those of the two.
fn is_held(sums: PairSums, other: LineId, line: LineId, most: u64) -> bool
    requires { most < 2 ^ 63 }
    ensures { result ≡ (other.0 == line.0 || not (sums_part most sums.against_turned sums.sides)) }
{
    if other == line {
        return true;
    }
    !sums.part_turned(most)
}

/// Whether each line of the group can stand before each of these lines that are not of it.
pub(crate) fn group_parts(
    alloc: Global,
    table: &[Vec<PairSums>],
    lines: &[LineId],
    most: u64,
    group: &[LineId],
) -> Result<bool, NoMemory>
    requires rising { AreRising lines.now }
    requires sized { AreSized lines.now (lists_of table.now) }
    requires most { most < 2 ^ 63 }
    requires among { list_all (has_line lines.now) group.now ≡ true }
    ensures { IfOk result (λ all. (w : LineId → LineId → PairSums) → IsTable w lines.now (lists_of table.now)
        → all ≡ list_all (λ a. each_parts most (map (has_line group.now) lines.now) (map (w a) lines.now)) group.now) }
{
    let marks = group_marks(alloc, lines, group)?;
    for line in group {
        if !line_parts(table, lines, marks.as_slice(), most, *line) {
            return Ok(false);
        }
    }
    Ok(true)
}

/// Whether a line can stand before each line without a mark.
fn line_parts(
    table: &[Vec<PairSums>],
    lines: &[LineId],
    marks: &[bool],
    most: u64,
    line: LineId,
) -> bool
    requires rising { AreRising lines.now }
    requires sized { AreSized lines.now (lists_of table.now) }
    requires most { most < 2 ^ 63 }
    requires among { has_line lines.now line ≡ true }
    ensures { (w : LineId → LineId → PairSums) → IsTable w lines.now (lists_of table.now) → result ≡ each_parts most marks.now (map (w line) lines.now) }
{
    match place_of(lines, line) {
        Some(place) => row_parts(row_at(table, place), marks, most),
        None => unreachable!(),
    }
}

/// Whether each of these sums, but where there is a mark, says that its line can stand after.
fn row_parts(row: &[PairSums], marks: &[bool], most: u64) -> bool
    requires { most < 2 ^ 63 }
    ensures { result ≡ each_parts most marks.now row.now }
{
    let mut left_marks = marks;
    let mut left_row = row;
    while let Some((mark, later_marks)) = left_marks.split_first() {
        let Some((sums, later)) = left_row.split_first() else {
            return true;
        };
        if !*mark && !sums.part(most) {
            return false;
        }
        left_marks = later_marks;
        left_row = later;
    }
    true
}

/// For each line whether it is of the group.
fn group_marks(alloc: Global, lines: &[LineId], group: &[LineId]) -> Result<Vec<bool>, NoMemory>
    ensures { IfOk result (λ marks. marks.items ≡ map (has_line group.now) lines.now) }
{
    let mut marks = Vec::with_capacity(alloc, lines.len())?;
    for line in lines {
        marks.push(has_line(group, *line))?;
    }
    Ok(marks)
}
