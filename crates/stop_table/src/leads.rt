//! The station to which a row of `stops.txt` leads.

ghost use Rattle.std.specs.Prelude.{◌≡◌, ◌≤◌, ◌<◌, ◌^◌, None, ℕ, length, map, drop, option_map, IfOk};
ghost use Rattle.table_rows.specs.Cells.{row_at};
ghost use Rattle.table_rows.specs.NewIds.{AreNew};
ghost use Rattle.stop_table.specs.Stops.{stop_columns, stations_of};
ghost use Rattle.stop_table.specs.Leads.{stop_ids, near_lead, near_lead_in, lead_of_id, lead_in, station_ids, station_led, known_stops};

use crate::known::KnownStops;
use crate::stop_columns::{LocationType, StopColumns};
use crate::stop_row::type_in;
use crate::stops::is_own_station;
use gtfs_fields::Rows;
use map_base::{NoMemory, Sequence};
use std::alloc::Global;
use table_rows::{Ids, field_in, ids_of_rows, note_new, small};

/// The id of the station to which a row leads that is no boarding area.
fn near_lead<'a>(kind: Option<LocationType>, id: &'a [u8], parent: &'a [u8]) -> Option<&'a [u8]>
    ensures { option_map (λ lead. lead.now) result ≡ near_lead kind id.now parent.now }
{
    match kind {
        Some(LocationType::Station) => Some(id),
        Some(LocationType::Stop) => {
            if parent.is_empty() {
                Some(id)
            } else {
                Some(parent)
            }
        }
        _ => None,
    }
}

fn near_lead_in<'a>(rows: &'a Rows, row: usize, columns: &StopColumns) -> Option<&'a [u8]>
    requires { row < length rows.now }
    ensures { option_map (λ lead. lead.now) result ≡ near_lead_in columns.now (row_at rows.now row) }
{
    near_lead(
        type_in(rows, row, columns),
        field_in(rows, row, columns.id),
        field_in(rows, row, columns.parent),
    )
}

/// Where the row of an id leads that is no boarding area.
fn lead_of_id<'a>(rows: &'a Rows, columns: &StopColumns, ids: &Ids, id: &[u8]) -> Option<&'a [u8]>
    requires header { 0 < length rows.now }
    requires few { length rows.now ≤ 2 ^ 32 }
    requires ids { ids.now ≡ stop_ids columns.now rows.now }
    ensures { option_map (λ lead. lead.now) result ≡ lead_of_id columns.now rows.now id.now }
{
    match ids.place_of(id) {
        None => None,
        Some(place) => near_lead_in(rows, place + 1, columns),
    }
}

/// The id of the station to which a row leads: a boarding area leads to what its parent leads to.
fn lead_in<'a>(rows: &'a Rows, row: usize, columns: &StopColumns, ids: &Ids) -> Option<&'a [u8]>
    requires within { row < length rows.now }
    requires few { length rows.now ≤ 2 ^ 32 }
    requires ids { ids.now ≡ stop_ids columns.now rows.now }
    ensures { option_map (λ lead. lead.now) result ≡ lead_in columns.now rows.now (row_at rows.now row) }
{
    match type_in(rows, row, columns) {
        Some(LocationType::BoardingArea) => {
            lead_of_id(rows, columns, ids, field_in(rows, row, columns.parent))
        }
        kind => near_lead(
            kind,
            field_in(rows, row, columns.id),
            field_in(rows, row, columns.parent),
        ),
    }
}

/// The number of the station to which a row leads.
fn station_led(
    rows: &Rows,
    row: usize,
    columns: &StopColumns,
    ids: &Ids,
    among: &Ids,
) -> Option<u32>
    requires within { row < length rows.now }
    requires few { length among.now ≤ 2 ^ 32 }
    requires rows { length rows.now ≤ 2 ^ 32 }
    requires columns { columns.now ≡ stop_columns rows.now }
    requires ids { ids.now ≡ stop_ids columns.now rows.now }
    requires stations { among.now ≡ station_ids (stations_of rows.now) }
    ensures { result ≡ station_led columns.now rows.now (row_at rows.now row) }
{
    match lead_in(rows, row, columns, ids) {
        None => None,
        Some(id) => small(among.place_of(id)),
    }
}

/// The ids of the stations of a table.
fn ids_of_stations<'a>(
    alloc: Global,
    rows: &'a Rows,
    columns: &StopColumns,
) -> Result<Ids<'a>, NoMemory>
    requires header { 0 < length rows.now }
    requires columns { columns.now ≡ stop_columns rows.now }
    requires new { AreNew columns.now.id rows.now }
    ensures ids { IfOk result (λ ids. ids ≡ station_ids (stations_of rows.now)) }
    ensures few { IfOk result (λ ids. length ids ≤ length rows.now) }
{
    let mut ids = Ids::new(alloc);
    for row in 1..rows.len() {
        let wanted = is_own_station(rows, row, columns);
        note_new(&mut ids, wanted, field_in(rows, row, columns.id))?;
    }
    Ok(ids)
}

/// The number of the station to which each row leads.
fn stations_led(
    alloc: Global,
    rows: &Rows,
    columns: &StopColumns,
    ids: &Ids,
    among: &Ids,
) -> Result<Vec<Option<u32>>, NoMemory>
    requires header { 0 < length rows.now }
    requires few { length among.now ≤ 2 ^ 32 }
    requires rows { length rows.now ≤ 2 ^ 32 }
    requires columns { columns.now ≡ stop_columns rows.now }
    requires ids { ids.now ≡ stop_ids columns.now rows.now }
    requires stations { among.now ≡ station_ids (stations_of rows.now) }
    ensures { IfOk result (λ led. led.items ≡ map (station_led columns.now rows.now) (drop 1 rows.now)) }
{
    let mut led = Vec::with_capacity(alloc, rows.len())?;
    for row in 1..rows.len() {
        led.push(station_led(rows, row, columns, ids, among))?;
    }
    Ok(led)
}

/// The stops of a table by their ids, where no two rows give one id.
pub(crate) fn known_stops<'a>(
    alloc: Global,
    rows: &'a Rows,
    columns: &StopColumns,
) -> Result<KnownStops<'a>, NoMemory>
    requires header { 0 < length rows.now }
    requires few { length rows.now ≤ 2 ^ 32 }
    requires columns { columns.now ≡ stop_columns rows.now }
    requires new { AreNew columns.now.id rows.now }
    ensures { IfOk result (λ known. known ≡ known_stops rows.now) }
{
    let ids = ids_of_rows(alloc, rows, columns.id)?;
    let station_ids = ids_of_stations(alloc, rows, columns)?;
    let led = stations_led(alloc, rows, columns, &ids, &station_ids)?;
    Ok(KnownStops {
        ids,
        stations: Sequence::of(led),
    })
}
