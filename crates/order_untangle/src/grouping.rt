//! The least group of a segment's lines that can stand before the others.

ghost use Rattle.std.specs.Prelude.{◌≡◌, ◌<◌, ◌++◌, ◌∷◌, [], IfOk, OnOk, IsTrue, ◌↔◌, length, not, replicate, slice_set, true, false};
ghost use Rattle.order_rules.specs.Dividing.{are_none, others};
ghost use Rattle.order_untangle.specs.Segments.{any_marked, closure_at, first_at, grown_marks, marked, next_marks, place_group, rows_of};

use map_base::{LineId, NoMemory, Sequence};
use order_rules::leaves_some;
use std::alloc::Global;

/// Of these lines, with the rows of which lines hold which, the closure of the first whose closure is not all lines.
pub(crate) fn least_group(
    alloc: Global,
    lines: &[LineId],
    rows: &[Vec<bool>],
) -> Result<Option<Sequence<LineId>>, NoMemory>
    requires { length rows.now ≡ length lines.now }
    ensures { IfOk result (λ group. group ≡ first_at (place_group (rows_of rows.now) lines.now) (length lines.now) 0) }
{
    for start in 0..lines.len() {
        let group = closure(alloc, lines, rows, start)?;
        if leaves_some(lines, group.as_slice()) {
            return Ok(Some(Sequence::of(group)));
        }
    }
    Ok(None)
}

/// The closure of the line at a place.
fn closure(
    alloc: Global,
    lines: &[LineId],
    rows: &[Vec<bool>],
    start: usize,
) -> Result<Vec<LineId>, NoMemory>
    requires start { start < length lines.now }
    requires rows { length rows.now ≡ length lines.now }
    ensures { IfOk result (λ group. group.items ≡ closure_at (rows_of rows.now) lines.now start) }
{
    let marks = mark_at(alloc, lines.len(), start)?;
    let last = grown_marks(alloc, rows, marks)?;
    let group = marked(alloc, last.as_slice(), lines)?;
    Ok(group)
}

/// So many marks, of which one is set.
fn mark_at(alloc: Global, count: usize, place: usize) -> Result<Vec<bool>, NoMemory>
    requires { place < count }
    ensures { IfOk result (λ marks. marks.items ≡ slice_set (replicate count false) place true) }
{
    let mut marks = vec![in alloc; false; count]?;
    marks[place] = true;
    Ok(marks)
}

/// Marks grown as often as there are rows, or until they grow no more.
fn grown_marks(
    alloc: Global,
    rows: &[Vec<bool>],
    mut marks: Vec<bool>,
) -> Result<Vec<bool>, NoMemory>
    ensures { IfOk result (λ last. last.items ≡ grown_marks (rows_of rows.now) (length rows.now) marks.items) }
{
    let mut next = Vec::with_capacity(alloc, rows.len())?;
    for _ in 0..rows.len() {
        fill_next(rows, marks.as_slice(), &mut next)?;
        if same_marks(marks.as_slice(), next.as_slice()) {
            return Ok(marks);
        }
        std::mem::swap(&mut marks, &mut next);
    }
    Ok(marks)
}

/// Puts the marks of the lines that marked lines hold into `next`.
fn fill_next(rows: &[Vec<bool>], marks: &[bool], next: &mut Vec<bool>) -> Result<(), NoMemory>
    ensures { OnOk result (next.new.items ≡ next_marks (rows_of rows.now) marks.now) }
{
    next.clear();
    for row in rows {
        next.push(any_marked(marks, row.as_slice()))?;
    }
    Ok(())
}

/// Whether one of the marked places has an answer.
fn any_marked(marks: &[bool], row: &[bool]) -> bool
    ensures { result ≡ any_marked marks.now row.now }
{
    let mut left_marks = marks;
    let mut left_row = row;
    while let Some((mark, later_marks)) = left_marks.split_first() {
        let Some((held, later)) = left_row.split_first() else {
            return false;
        };
        if *mark && *held {
            return true;
        }
        left_marks = later_marks;
        left_row = later;
    }
    false
}

/// Whether two lists of marks are the same.
fn same_marks(marks: &[bool], others: &[bool]) -> bool
    ensures { IsTrue result ↔ (marks.now ≡ others.now) }
{
    marks == others
}

/// The lines whose places are marked.
fn marked(alloc: Global, marks: &[bool], lines: &[LineId]) -> Result<Vec<LineId>, NoMemory>
    ensures { IfOk result (λ group. group.items ≡ marked marks.now lines.now) }
{
    let mut group = Vec::new(alloc);
    let mut left_marks = marks;
    let mut left_lines = lines;
    while let Some((mark, later_marks)) = left_marks.split_first() {
        let Some((line, later)) = left_lines.split_first() else {
            return Ok(group);
        };
        put_marked(&mut group, *mark, *line)?;
        left_marks = later_marks;
        left_lines = later;
    }
    Ok(group)
}

/// Puts a line behind the group, if it is marked.
fn put_marked(group: &mut Vec<LineId>, mark: bool, line: LineId) -> Result<(), NoMemory>
    ensures { OnOk result (group.new.items ≡ group.old.items ++ marked (mark ∷ []) (line ∷ [])) }
{
    if mark {
        group.push(line)?;
    }
    Ok(())
}
