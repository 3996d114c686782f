//! The rows of `stops.txt` that others may name as their parent.

ghost use Rattle.std.specs.Prelude.{◌≡◌, ◌<◌, ◌||◌, ◌&&◌, ℕ, true, List, length, drop, bytes_eq, IfOk, OnOk};
ghost use Rattle.std.specs.List.{list_any};
ghost use Rattle.table_rows.specs.Ids.{is_among, AreSame};
ghost use Rattle.table_rows.specs.Cells.{row_at};
ghost use Rattle.stop_table.specs.Stops.{ids_of_type, has_type, type_in, has_boarding_area};
ghost use Rattle.stop_table.specs.Parents.{AreParents};

use crate::stop_columns::{LocationType, StopColumns};
use crate::stop_row::{has_type, type_in};
use gtfs_fields::Rows;
use map_base::NoMemory;
use std::alloc::Global;
use table_rows::{Ids, field_in};

/// The ids that a parent may have.
#[derive(Drop)]
pub(crate) struct Parents<'a> {
    /// All stations: the parents of stops.
    pub(crate) stations: Ids<'a>,
    /// All stops, where the table has a boarding area: the parents of these.
    pub(crate) stops: Ids<'a>,
}

fn note_if<'a>(ids: &mut Ids<'a>, wanted: bool, id: &'a [u8]) -> Result<(), NoMemory>
    ensures { OnOk result ((other : List ℕ) → is_among other ids.new ≡ (is_among other ids.old || (wanted && bytes_eq other id.now))) }
{
    if wanted {
        ids.note(id)?;
    }
    Ok(())
}

/// The ids of all rows of one type.
fn ids_of_type<'a>(
    alloc: Global,
    rows: &'a Rows,
    columns: &StopColumns,
    wanted: LocationType,
) -> Result<Ids<'a>, NoMemory>
    requires { 0 < length rows.now }
    ensures { IfOk result (λ ids. AreSame ids (ids_of_type wanted columns.now rows.now)) }
{
    let mut ids = Ids::new(alloc);
    for row in 1..rows.len() {
        let is_wanted = has_type(wanted, type_in(rows, row, columns));
        note_if(&mut ids, is_wanted, field_in(rows, row, columns.id))?;
    }
    Ok(ids)
}

/// Whether a row is a boarding area.
fn has_boarding_area(rows: &Rows, columns: &StopColumns) -> bool
    requires { 0 < length rows.now }
    ensures { result ≡ has_boarding_area columns.now rows.now }
{
    for row in 1..rows.len() {
        if has_type(LocationType::BoardingArea, type_in(rows, row, columns)) {
            return true;
        }
    }
    false
}

fn stop_ids<'a>(alloc: Global, rows: &'a Rows, columns: &StopColumns) -> Result<Ids<'a>, NoMemory>
    requires { 0 < length rows.now }
    ensures { IfOk result (λ ids. has_boarding_area columns.now rows.now ≡ true → AreSame ids (ids_of_type LocationType.Stop columns.now rows.now)) }
{
    if has_boarding_area(rows, columns) {
        ids_of_type(alloc, rows, columns, LocationType::Stop)
    } else {
        Ok(Ids::new(alloc))
    }
}

/// The parents that rows may name, wherever they stand in the table.
pub(crate) fn parents_of<'a>(
    alloc: Global,
    rows: &'a Rows,
    columns: &StopColumns,
) -> Result<Parents<'a>, NoMemory>
    requires { 0 < length rows.now }
    ensures { IfOk result (AreParents columns.now rows.now) }
{
    Ok(Parents {
        stations: ids_of_type(alloc, rows, columns, LocationType::Station)?,
        stops: stop_ids(alloc, rows, columns)?,
    })
}
