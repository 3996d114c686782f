//! The stations of `stops.txt`.

ghost use Rattle.std.specs.Prelude.{◌≡◌, ◌≤◌, ◌<◌, ◌++◌, None, ℕ, true, length, pos, unwrap_or, option_to_list, option_map, IfOk, OnOk, IfSome, List, Option, All};
ghost use Rattle.table_rows.specs.declared.why.Table.TheVariants as tables;
ghost use Rattle.table_rows.specs.Folder.{table_file};
ghost use Rattle.table_rows.specs.Cells.{row_at, field_in, is_text};
ghost use Rattle.table_rows.specs.Reasons.{first_bad};
ghost use Rattle.transit_feed.specs.Feeds.{IsPlaced};
ghost use Rattle.table_rows.specs.Outcome.{Answers, never, rose_at};
ghost use Rattle.stop_table.specs.Stops.{stop_columns, type_in, is_own_station, station_of, stations_of, stops_reason, stops_of, stops_of_file, stops_outcome};

use crate::stop_columns::{LocationType, StopColumns};
use crate::stop_row::{latitude_in, longitude_in, stop_columns, type_in};
use crate::stops_check::check_stops;
use files_door::Files;
use gtfs_fields::Rows;
use map_base::NoMemory;
use std::alloc::Global;
use table_rows::{FeedFault, Table, Why, bad_row, bytes_of, field_in, required_rows, text_of};
use transit_feed::Station;

/// Whether a row is a station: one of that type, or a stop without a parent.
pub(crate) fn is_own_station(rows: &Rows, row: usize, columns: &StopColumns) -> bool
    requires { row < length rows.now }
    ensures { result ≡ is_own_station (type_in columns.now (row_at rows.now row)) (field_in (row_at rows.now row) columns.now.parent) }
{
    match type_in(rows, row, columns) {
        Some(LocationType::Station) => true,
        Some(LocationType::Stop) => field_in(rows, row, columns.parent).is_empty(),
        _ => false,
    }
}

/// The station that a row is, if it is one.
fn station_of(
    alloc: Global,
    rows: &Rows,
    row: usize,
    columns: &StopColumns,
) -> Result<Option<Station>, NoMemory>
    requires within { row < length rows.now }
    requires text { is_text (row_at rows.now row) ≡ true }
    ensures { IfOk result (λ station. station ≡ station_of columns.now (row_at rows.now row)) }
{
    if !is_own_station(rows, row, columns) {
        return Ok(None);
    }
    Ok(Some(Station {
        id: text_of(alloc, field_in(rows, row, columns.id))?,
        name: text_of(alloc, field_in(rows, row, columns.name))?,
        lat: latitude_in(rows, row, columns).unwrap_or(0),
        lon: longitude_in(rows, row, columns).unwrap_or(0),
    }))
}

fn push_some(stations: &mut Vec<Station>, station: Option<Station>) -> Result<(), NoMemory>
    ensures { OnOk result (stations.new.items ≡ stations.old.items ++ option_to_list station) }
{
    if let Some(station) = station {
        stations.push(station)?;
    }
    Ok(())
}

/// The stations of a table without a bad row.
#[tactic(auto, using(crate::proofs::StopLemmas::is_text_good, table_rows::proofs::RowLemmas::filter_map_before))]
pub(crate) fn stations_of(
    alloc: Global,
    rows: &Rows,
    columns: &StopColumns,
) -> Result<Vec<Station>, NoMemory>
    requires header { 0 < length rows.now }
    requires columns { columns.now ≡ stop_columns rows.now }
    requires good { first_bad (stops_reason rows.now) rows.now ≡ None }
    ensures { IfOk result (λ stations. stations.items ≡ stations_of rows.now) }
{
    let mut stations = Vec::with_capacity(alloc, rows.len())?;
    for row in 1..rows.len() {
        let station = station_of(alloc, rows, row, columns)?;
        push_some(&mut stations, station)?;
    }
    Ok(stations)
}

/// The stations of a table, or its first bad row.
pub(crate) fn stations_in(alloc: Global, rows: &Rows) -> Result<Vec<Station>, FeedFault>
    ensures stations { Answers never (λ stations. stations.items) result (stops_of rows.now) }
    ensures placed { IfOk result (λ stations. All IsPlaced stations.items) }
{
    if rows.len() == 0 {
        return Err(bad_row(Table::Stops, 0, Why::MissingColumn));
    }
    let columns = stop_columns(rows);
    check_stops(alloc, rows, &columns)?;
    Ok(stations_of(alloc, rows, &columns)?)
}

/// The stations of the bytes of `stops.txt`, if it is there, or its first bad row.
fn stations_of_file(alloc: Global, bytes: Option<Vec<u8>>) -> Result<Vec<Station>, FeedFault>
    ensures stations { Answers never (λ stations. stations.items) result (stops_of_file (option_map (λ v. v.items) bytes)) }
    ensures placed { IfOk result (λ stations. All IsPlaced stations.items) }
{
    let rows = required_rows(alloc, Table::Stops, bytes)?;
    stations_in(alloc, &rows)
}

/// The stations of `stops.txt` of a folder, in the order of its rows. The path that is read is the folder, '/',
/// and `stops.txt`.
///
/// Where the files are told, the answer is the defined one: the stations, or the first bad row with its least
/// reason, or the limit of a file's length. Only want of memory may come in its place, and `ReadFault`, which
/// comes only where the files' count of faults rose. Where they are not told, the same holds of some file.
pub fn read_stations<F: Files>(
    alloc: Global,
    files: &mut F,
    folder: &str,
) -> Result<Vec<Station>, FeedFault>
    ensures told { IfSome (F.told files.old) (λ all. Answers (rose_at tables.Stops (F.faults files.old) (F.faults files.new)) (λ stations. stations.items) result (stops_outcome (table_file all folder.now tables.Stops))) }
    ensures untold { (file : Option (List ℕ)) × Answers (rose_at tables.Stops (F.faults files.old) (F.faults files.new)) (λ stations. stations.items) result (stops_outcome file) }
    ensures placed { IfOk result (λ stations. All IsPlaced stations.items) }
    ensures kept { F.told files.new ≡ F.told files.old }
    ensures later { F.faults files.old ≤ F.faults files.new }
{
    let bytes = bytes_of(alloc, files, folder, Table::Stops)?;
    stations_of_file(alloc, bytes)
}
