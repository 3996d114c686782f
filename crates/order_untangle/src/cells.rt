//! Cells that hold the terms of a problem under way, none where one was dropped.

ghost use Rattle.std.specs.Prelude.{◌≡◌, ◌++◌, [], ◌∷◌, IfOk, OnOk, Some, map, slice_set};
ghost use Rattle.order_untangle.specs.LeftTerms.{cell_at, changed, divided_cell, left, live, merged_cell};

use map_base::{LineId, NoMemory, SegId};
use order_model::Term;
use order_rules::{is_across, is_between, moved, sent};
use std::alloc::Global;

/// The cell with a number, an empty one past the end.
pub(crate) fn cell_at(cells: &[Option<Term>], number: u32) -> Option<Term>
    ensures { result ≡ cell_at cells.now number }
{
    match cells.get(number as usize) {
        Some(cell) => *cell,
        None => None,
    }
}

/// A cell for each term.
pub(crate) fn filled(alloc: Global, terms: &[Term]) -> Result<Vec<Option<Term>>, NoMemory>
    ensures { IfOk result (λ cells. cells.items ≡ map Some terms.now) }
{
    let mut cells = Vec::with_capacity(alloc, terms.len())?;
    for term in terms {
        cells.push(Some(*term))?;
    }
    Ok(cells)
}

/// Puts the term of a cell behind these terms, if the cell holds one.
pub(crate) fn put_left(terms: &mut Vec<Term>, cell: Option<Term>) -> Result<(), NoMemory>
    ensures { OnOk result (terms.new.items ≡ terms.old.items ++ left (cell ∷ [])) }
{
    if let Some(term) = cell {
        terms.push(term)?;
    }
    Ok(())
}

/// Puts the terms in the cells with these numbers into `terms`.
#[tactic(auto, using(crate::proofs::CellLemmas::live_more))]
pub(crate) fn live_terms(
    cells: &[Option<Term>],
    numbers: &[u32],
    terms: &mut Vec<Term>,
) -> Result<(), NoMemory>
    ensures { OnOk result (terms.new.items ≡ live cells.now numbers.now) }
{
    terms.clear();
    for number in numbers {
        put_left(terms, cell_at(cells, *number))?;
    }
    Ok(())
}

/// Changes the cells with these numbers as a merge does.
#[tactic(auto, using(crate::proofs::CellLemmas::changed_step, crate::proofs::CellLemmas::changed_done))]
pub(crate) fn merge_cells(
    cells: &mut Vec<Option<Term>>,
    numbers: &[u32],
    into: SegId,
    from: SegId,
    flip: bool,
)
    ensures { cells.new.items ≡ changed (merged_cell into from flip) cells.old.items numbers.now }
{
    for number in numbers {
        let cell = merged_cell(cell_at(cells.as_slice(), *number), into, from, flip);
        put_cell(cells, *number, cell);
    }
}

/// What becomes of a cell in a merge.
fn merged_cell(cell: Option<Term>, into: SegId, from: SegId, flip: bool) -> Option<Term>
    ensures { result ≡ merged_cell into from flip cell }
{
    let term = cell?;
    if is_between(term, into, from) {
        return None;
    }
    Some(moved(into, from, flip, term))
}

/// Changes the cells with these numbers as a division does.
#[tactic(auto, using(crate::proofs::CellLemmas::changed_step, crate::proofs::CellLemmas::changed_done))]
pub(crate) fn divide_cells(
    cells: &mut Vec<Option<Term>>,
    numbers: &[u32],
    seg: SegId,
    new: SegId,
    group: &[LineId],
    rest: &[LineId],
)
    ensures { cells.new.items ≡ changed (divided_cell seg new group.now rest.now) cells.old.items numbers.now }
{
    for number in numbers {
        let cell = divided_cell(cell_at(cells.as_slice(), *number), seg, new, group, rest);
        put_cell(cells, *number, cell);
    }
}

/// What becomes of a cell in a division.
fn divided_cell(
    cell: Option<Term>,
    seg: SegId,
    new: SegId,
    group: &[LineId],
    rest: &[LineId],
) -> Option<Term>
    ensures { result ≡ divided_cell seg new group.now rest.now cell }
{
    let term = cell?;
    if is_across(term, seg, group, rest) {
        return None;
    }
    Some(sent(seg, new, rest, term))
}

/// Writes the cell with a number, if there is one.
fn put_cell(cells: &mut Vec<Option<Term>>, number: u32, cell: Option<Term>)
    ensures { cells.new.items ≡ slice_set cells.old.items number cell }
{
    if (number as usize) < cells.len() {
        cells[number as usize] = cell;
    }
}
