//! The rows of `shapes.txt` are read, one after another, up to the first that is bad by itself.

ghost use Rattle.std.specs.Prelude.{◌≡◌, ◌≤◌, ◌<◌, ◌^◌, ◌&&◌, ◌++◌, ◌∷◌, [], None, Bool, length, IfOk, OnOk, not, is_some, bytes_eq, if◌then◌else◌};
ghost use Rattle.table_rows.specs.Ids.{AreSame, noted, is_among};
ghost use Rattle.sequence_tables.specs.Shapes.{shape_columns};
ghost use Rattle.sequence_tables.specs.ShapeReads.{own_reason_at, sighted_before, AreReads};

use crate::reads::{Reads, ReadsSoFar};
use crate::shape_columns::ShapeColumns;
use crate::shape_row::{LastShape, read_row};
use gtfs_fields::Rows;
use map_base::NoMemory;
use std::alloc::Global;
use table_rows::{Ids, Slices, field_in};

/// The ids that trips name, each once.
pub(crate) fn ids_of<'a>(alloc: Global, shapes: &Slices<'a>) -> Result<Ids<'a>, NoMemory>
    ensures same { IfOk result (λ ids. AreSame ids shapes.now) }
    ensures few { IfOk result (λ ids. length ids ≤ length shapes.now) }
{
    let mut ids = Ids::new(alloc);
    for k in 0..shapes.len() {
        ids.note(shapes.at(k))?;
    }
    Ok(ids)
}

/// What the rows say that are read in full, up to the first row that is bad by itself, or the last.
pub(crate) fn read_shapes(
    alloc: Global,
    named: &Ids,
    rows: &Rows,
    columns: &ShapeColumns,
) -> Result<Reads<(i64, i64)>, NoMemory>
    requires header { 0 < length rows.now }
    requires few_rows { length rows.now ≤ 2 ^ 32 }
    requires few_shapes { length named.now ≤ 2 ^ 32 }
    requires columns { columns.now ≡ shape_columns rows.now }
    requires good { own_reason_at named.now rows.now 0 ≡ None }
    ensures { IfOk result (AreReads named.now rows.now) }
{
    let mut so_far = ReadsSoFar::new(alloc);
    let mut last = LastShape::of(named, &[]);
    for row in 1..rows.len() {
        last = last.next(named, field_in(rows, row, columns.id));
        match read_row(rows, row, columns, last.place) {
            Ok(read) => so_far.note(row as u32, read)?,
            Err(why) => return Ok(so_far.up_to(row, Some(why))),
        }
    }
    Ok(so_far.up_to(rows.len(), None))
}

/// Notes an id, where it is wanted, with those that were seen.
fn sight<'a>(
    seen: &mut Ids<'a>,
    order: &mut Slices<'a>,
    wanted: bool,
    id: &'a [u8],
) -> Result<(), NoMemory>
    requires { seen.old ≡ order.old }
    ensures order { OnOk result (order.new ≡ (if wanted then noted order.old id.now else order.old)) }
    ensures seen { OnOk result (seen.new ≡ order.new) }
{
    if wanted && seen.note(id)? {
        order.push(id)?;
    }
    Ok(())
}

/// Whether a row may be the first of a shape that trips name, told the shape of the row before.
fn may_be_first(last: &LastShape, next: &LastShape) -> bool
    ensures { result ≡ (not (bytes_eq last.now.id.now next.now.id.now) && is_some next.now.place) }
{
    last.id != next.id && next.place.is_some()
}

/// The ids among some that rows have, in the order of their first rows.
pub(crate) fn in_order_of_rows<'a>(
    alloc: Global,
    named: &Ids,
    rows: &'a Rows,
    columns: &ShapeColumns,
) -> Result<Slices<'a>, NoMemory>
    requires header { 0 < length rows.now }
    ensures order { IfOk result (λ order. order ≡ sighted_before named.now columns.now (length rows.now) rows.now) }
    ensures few { IfOk result (λ order. length order ≤ length rows.now) }
{
    let mut seen = Ids::new(alloc);
    let mut order = Slices::new(alloc);
    let mut last = LastShape::of(named, &[]);
    for row in 1..rows.len() {
        let next = last.next(named, field_in(rows, row, columns.id));
        let wanted = may_be_first(&last, &next);
        sight(&mut seen, &mut order, wanted, next.id)?;
        last = next;
    }
    Ok(order)
}
