//! The sums of each two lines of a segment, in a table by place: one pass over the terms makes it.

ghost use Rattle.std.specs.Prelude.{◌≡◌, ◌≤◌, ◌<◌, [], IfOk, true, length, replicate, slice_set, slice_index_or};
ghost use Rattle.std.specs.List.{list_all};
ghost use Rattle.graph_core.specs.Consistent.{AreRising};
ghost use Rattle.order_sums.specs.declared.pair_sums.PairSums.{PairSums};
ghost use Rattle.order_sums.specs.PairSums.{pair_sums, no_sums, is_light};
ghost use Rattle.order_sums.specs.PairTables.{AreLinesOf, AreSized, AreSmall, IsPlace, IsTable, lists_of, sums_at, with_pair};

use crate::pair_sums::PairSums;
use map_base::{LineId, NoMemory, SegId};
use order_model::Term;
use std::alloc::Global;

/// What the terms of each two of these lines weigh on `from`, and between `into` and `from`.
pub fn pair_table(
    alloc: Global,
    terms: &[Term],
    into: SegId,
    from: SegId,
    lines: &[LineId],
) -> Result<Vec<Vec<PairSums>>, NoMemory>
    requires rising { AreRising lines.now }
    requires few { length terms.now ≤ 4000000 }
    requires light { list_all is_light terms.now ≡ true }
    ensures { IfOk result (λ table. IsTable (pair_sums into from terms.now) lines.now (lists_of table.items)) }
{
    let mut table = empty_table(alloc, lines.len())?;
    for term in terms {
        add_term(&mut table, lines, into, from, *term);
    }
    Ok(table)
}

/// The table of no terms.
fn empty_table(alloc: Global, count: usize) -> Result<Vec<Vec<PairSums>>, NoMemory>
    ensures { IfOk result (λ table. lists_of table.items ≡ replicate count (replicate count no_sums)) }
{
    let mut table = Vec::with_capacity(alloc, count)?;
    for _ in 0..count {
        let row = vec![in alloc; PairSums::none(); count]?;
        table.push(row)?;
    }
    Ok(table)
}

/// Adds a term to the sums of its two lines.
fn add_term(table: &mut Vec<Vec<PairSums>>, lines: &[LineId], into: SegId, from: SegId, term: Term)
    requires rising { AreRising lines.now }
    requires sized { AreSized lines.now (lists_of table.old.items) }
    requires small { AreSmall lines.now (lists_of table.old.items) }
    ensures { (w : LineId → LineId → PairSums) → IsTable w lines.now (lists_of table.old.items) → IsTable (with_pair w into from term) lines.now (lists_of table.new.items) }
{
    let (x, y) = lines_of(term);
    let Some(p) = place_of(lines, x) else {
        return;
    };
    let Some(q) = place_of(lines, y) else {
        return;
    };
    let sums = sums_at(table.as_slice(), p, q).with(into, from, x, y, term);
    let turned = sums_at(table.as_slice(), q, p).with(into, from, y, x, term);
    put(table, p, q, sums);
    put(table, q, p, turned);
}

/// One cell.
fn sums_at(table: &[Vec<PairSums>], p: usize, q: usize) -> PairSums
    requires row { p < length table.now }
    requires cell { q < length (slice_index_or (lists_of table.now) p []) }
    ensures { result ≡ sums_at (lists_of table.now) p q }
{
    let row = row_at(table, p);
    row[q]
}

/// One row.
pub fn row_at(table: &[Vec<PairSums>], p: usize) -> &[PairSums]
    requires { p < length table.now }
    ensures { result.now ≡ slice_index_or (lists_of table.now) p [] }
{
    table[p].as_slice()
}

/// The two lines of a term.
fn lines_of(term: Term) -> (LineId, LineId)
    ensures { AreLinesOf term result.0 result.1 }
{
    match term {
        Term::Side { first, second, .. } => (first, second),
        Term::Link { a, b, .. } | Term::Apart { a, b, .. } => (a, b),
    }
}

/// Writes one cell.
fn put(table: &mut Vec<Vec<PairSums>>, p: usize, q: usize, sums: PairSums)
    requires row { p < length table.old.items }
    requires cell { q < length (slice_index_or (lists_of table.old.items) p []) }
    ensures { lists_of table.new.items ≡ slice_set (lists_of table.old.items) p (slice_set (slice_index_or (lists_of table.old.items) p []) q sums) }
{
    let row = &mut table[p];
    row[q] = sums;
}

/// The place of a line among rising ones, if it is one of them.
pub fn place_of(lines: &[LineId], line: LineId) -> Option<usize>
    requires { AreRising lines.now }
    ensures { IsPlace lines.now line result }
{
    match lines.binary_search(&line) {
        Ok(place) => Some(place),
        Err(_) => None,
    }
}
