//! For each segment the numbers of the cells that hold its terms.

ghost use Rattle.std.specs.Prelude.{◌≡◌, ◌<◌, ◌≤◌, ◌++◌, [], IfOk, OnOk, Some, length, map, filter, slice_set, slice_index_or};
ghost use Rattle.std.specs.List.{AllByRecursion};
ghost use Rattle.order_model.specs.Places.{tables_of};
ghost use Rattle.order_model.specs.PartTerms.{no_numbers, with_number};
ghost use Rattle.order_untangle.specs.LeftTerms.{AreListed, IsFit, cell_at, holds_on, with_ends};

use crate::cells::cell_at;
use map_base::{NoMemory, SegId};
use order_model::{Term, ends_of};
use order_rules::is_on;
use std::alloc::Global;

/// The numbers of a segment, none where there is no such segment.
pub(crate) fn numbers_of(on: &[Vec<u32>], seg: SegId) -> &[u32]
    ensures { result.now ≡ slice_index_or (tables_of on.now) seg.0 [] }
{
    match on.get(seg.0 as usize) {
        Some(numbers) => numbers.as_slice(),
        None => &[],
    }
}

/// Takes the numbers of a segment.
pub(crate) fn taken(alloc: Global, on: &mut Vec<Vec<u32>>, seg: SegId) -> Vec<u32>
    requires { seg.0 < length on.old.items }
    ensures numbers { result.items ≡ slice_index_or (tables_of on.old.items) seg.0 [] }
    ensures others { tables_of on.new.items ≡ slice_set (tables_of on.old.items) seg.0 [] }
{
    std::mem::replace(&mut on[seg.0 as usize], Vec::new(alloc))
}

/// Those of these numbers whose cells hold a term of the segment.
pub(crate) fn numbers_on(
    alloc: Global,
    numbers: &[u32],
    cells: &[Option<Term>],
    seg: SegId,
) -> Result<Vec<u32>, NoMemory>
    ensures { IfOk result (λ kept. kept.items ≡ filter (λ n. holds_on seg (cell_at cells.now n)) numbers.now) }
{
    let mut kept = Vec::new(alloc);
    for number in numbers {
        if holds_on(cell_at(cells, *number), seg) {
            kept.push(*number)?;
        }
    }
    Ok(kept)
}

/// Whether the cell holds a term that stands on the segment.
fn holds_on(cell: Option<Term>, seg: SegId) -> bool
    ensures { result ≡ holds_on seg cell }
{
    match cell {
        Some(term) => is_on(term, seg),
        None => false,
    }
}

/// Gives a segment more numbers.
pub(crate) fn append_at(on: &mut Vec<Vec<u32>>, seg: SegId, more: &[u32]) -> Result<(), NoMemory>
    requires { seg.0 < length on.old.items }
    ensures { OnOk result (tables_of on.new.items ≡ slice_set (tables_of on.old.items) seg.0 (slice_index_or (tables_of on.old.items) seg.0 [] ++ more.now)) }
{
    let numbers = &mut on[seg.0 as usize];
    numbers.extend_from_slice(more)?;
    Ok(())
}

/// Takes away those numbers of a segment whose cells hold none of its terms.
pub(crate) fn forget_dropped(on: &mut Vec<Vec<u32>>, cells: &[Option<Term>], seg: SegId)
    requires { seg.0 < length on.old.items }
    ensures { tables_of on.new.items ≡ slice_set (tables_of on.old.items) seg.0 (filter (λ n. holds_on seg (cell_at cells.now n)) (slice_index_or (tables_of on.old.items) seg.0 [])) }
{
    let numbers = &mut on[seg.0 as usize];
    keep_on(numbers, cells, seg);
}

/// Keeps those of these numbers whose cells hold a term of the segment.
fn keep_on(numbers: &mut Vec<u32>, cells: &[Option<Term>], seg: SegId)
    ensures { numbers.new.items ≡ filter (λ n. holds_on seg (cell_at cells.now n)) numbers.old.items }
{
    numbers.retain(|n| holds_on(cell_at(cells, *n), seg));
}

/// For each segment the numbers of its terms, each in the cell of its own number.
pub(crate) fn numbers_by_segment(
    alloc: Global,
    count: usize,
    terms: &[Term],
) -> Result<Vec<Vec<u32>>, NoMemory>
    requires fit { AllByRecursion (IsFit count) terms.now }
    requires few { length terms.now ≤ 4000000 }
    ensures listed { IfOk result (λ on. AreListed (map Some terms.now) (tables_of on.items)) }
    ensures count { IfOk result (λ on. length on.items ≡ count) }
{
    let mut on = no_numbers(alloc, count)?;
    for (number, term) in terms.iter().enumerate() {
        push_ends(&mut on, *term, number as u32)?;
    }
    Ok(on)
}

/// Gives the segments of a term its number.
fn push_ends(on: &mut Vec<Vec<u32>>, term: Term, number: u32) -> Result<(), NoMemory>
    requires { IsFit (length on.old.items) term }
    ensures numbers { OnOk result (tables_of on.new.items ≡ with_ends term number (tables_of on.old.items)) }
    ensures count { OnOk result (length on.new.items ≡ length on.old.items) }
{
    let (here, there) = ends_of(term);
    push_at(on, here, number)?;
    if there != here {
        push_at(on, there, number)?;
    }
    Ok(())
}

/// Gives a segment one more number.
fn push_at(on: &mut Vec<Vec<u32>>, seg: SegId, number: u32) -> Result<(), NoMemory>
    requires { seg.0 < length on.old.items }
    ensures numbers { OnOk result (tables_of on.new.items ≡ with_number seg.0 number (tables_of on.old.items)) }
    ensures count { OnOk result (length on.new.items ≡ length on.old.items) }
{
    let numbers = &mut on[seg.0 as usize];
    numbers.push(number)?;
    Ok(())
}

/// No numbers for each segment.
fn no_numbers(alloc: Global, count: usize) -> Result<Vec<Vec<u32>>, NoMemory>
    ensures { IfOk result (λ on. tables_of on.items ≡ no_numbers count) }
{
    let mut on = Vec::with_capacity(alloc, count)?;
    for _ in 0..count {
        on.push(Vec::new(alloc))?;
    }
    Ok(on)
}
