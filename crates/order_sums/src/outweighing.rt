//! What is read of the sums of each two lines of a segment.

ghost use Rattle.std.specs.Prelude.{◌≡◌, ◌+◌, ◌<◌, ◌≤◌, [], IfOk, true, length, drop, slice_index_or};
ghost use Rattle.std.specs.List.{list_all};
ghost use Rattle.graph_core.specs.Consistent.{AreRising};
ghost use Rattle.order_rules.specs.PairWeights.{all_pairs, most_over_pairs};
ghost use Rattle.order_rules.specs.Merging.{outweighs};
ghost use Rattle.order_sums.specs.declared.pair_sums.PairSums.{PairSums};
ghost use Rattle.order_sums.specs.PairSums.{is_light, most_aparts, sums_outweigh};
ghost use Rattle.order_sums.specs.PairTables.{AreSized, IsTable, lists_of};

use crate::pair_sums::PairSums;
use crate::table::{pair_table, row_at};
use map_base::{LineId, NoMemory, SegId};
use order_model::Term;
use order_rules::greater;
use std::alloc::Global;

/// Whether for each two of these lines what lies between the two segments outweighs the rest on `from`, which has these
/// terms.
pub fn all_outweigh(
    alloc: Global,
    terms: &[Term],
    into: SegId,
    from: SegId,
    lines: &[LineId],
) -> Result<bool, NoMemory>
    requires rising { AreRising lines.now }
    requires few { length terms.now ≤ 4000000 }
    requires light { list_all is_light terms.now ≡ true }
    ensures { IfOk result (λ all. all ≡ all_pairs (outweighs into from terms.now) lines.now) }
{
    let table = pair_table(alloc, terms, into, from, lines)?;
    for i in 0..lines.len() {
        if !row_outweighs(later_cells(table.as_slice(), i)) {
            return Ok(false);
        }
    }
    Ok(true)
}

/// Whether for each of these sums what lies between the two segments outweighs the rest.
fn row_outweighs(row: &[PairSums]) -> bool
    ensures { result ≡ list_all sums_outweigh row.now }
{
    row.iter().all(|sums| sums.outweigh())
}

/// The greatest weight that the Aparts of two of these lines have together on a segment, by its table.
pub fn most_apart(table: &[Vec<PairSums>], lines: &[LineId]) -> u64
    requires { AreSized lines.now (lists_of table.now) }
    ensures { (w : LineId → LineId → PairSums) → IsTable w lines.now (lists_of table.now) → result ≡ most_over_pairs (λ a b. (w a b).all_aparts) lines.now }
{
    let mut most = 0;
    for i in 0..lines.len() {
        most = greater(most, most_in(later_cells(table, i)));
    }
    most
}

/// The greatest weight of Aparts among these sums.
fn most_in(row: &[PairSums]) -> u64
    ensures { result ≡ most_aparts row.now }
{
    let mut most = 0;
    for sums in row {
        most = greater(most, sums.all_aparts);
    }
    most
}

/// The cells of a row that stand after its own line.
fn later_cells(table: &[Vec<PairSums>], i: usize) -> &[PairSums]
    requires row { i < length table.now }
    requires cell { i < length (slice_index_or (lists_of table.now) i []) }
    ensures { result.now ≡ drop (i + 1) (slice_index_or (lists_of table.now) i []) }
{
    let row = row_at(table, i);
    &row[i + 1..]
}
