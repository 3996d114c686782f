//! What a row of `stops.txt` says.

ghost use Rattle.std.specs.Prelude.{◌≡◌, ◌<◌, ℕ, Bool, length, codes};
ghost use Rattle.table_rows.specs.Values.{number_of};
ghost use Rattle.stop_table.specs.Stops.{stop_columns, type_of_number, location_type, type_in, is_placed, has_type, latitude_in, longitude_in};
ghost use Rattle.table_rows.specs.Cells.{row_at};

use crate::stop_columns::{LocationType, StopColumns};
use gtfs_fields::Rows;
use table_rows::{column_of, field_in, latitude_of, longitude_of, number_of};

/// The columns that a header names.
pub(crate) fn stop_columns(rows: &Rows) -> StopColumns
    requires { 0 < length rows.now }
    ensures { result ≡ stop_columns rows.now }
{
    StopColumns {
        id: column_of(rows, b"stop_id"),
        name: column_of(rows, b"stop_name"),
        lat: column_of(rows, b"stop_lat"),
        lon: column_of(rows, b"stop_lon"),
        kind: column_of(rows, b"location_type"),
        parent: column_of(rows, b"parent_station"),
    }
}

fn type_of_number(number: u32) -> Option<LocationType>
    ensures { result ≡ type_of_number number }
{
    match number {
        0 => Some(LocationType::Stop),
        1 => Some(LocationType::Station),
        2 => Some(LocationType::Entrance),
        3 => Some(LocationType::GenericNode),
        4 => Some(LocationType::BoardingArea),
        _ => None,
    }
}

/// The location type that a field spells; an empty one is a stop.
fn location_type(field: &[u8]) -> Option<LocationType>
    ensures { result ≡ location_type field.now }
{
    if field.is_empty() {
        return Some(LocationType::Stop);
    }
    match number_of(field) {
        Some(number) => type_of_number(number),
        None => None,
    }
}

/// The location type of a row.
pub(crate) fn type_in(rows: &Rows, row: usize, columns: &StopColumns) -> Option<LocationType>
    requires { row < length rows.now }
    ensures { result ≡ type_in columns.now (row_at rows.now row) }
{
    location_type(field_in(rows, row, columns.kind))
}

/// Whether a row of this type has its latitude and longitude read.
pub(crate) fn is_placed(kind: Option<LocationType>) -> bool
    ensures { result ≡ is_placed kind }
{
    matches!(kind, Some(LocationType::Stop | LocationType::Station))
}

/// Whether a row's type is this one.
pub(crate) fn has_type(wanted: LocationType, kind: Option<LocationType>) -> bool
    ensures { result ≡ has_type wanted kind }
{
    match wanted {
        LocationType::Stop => matches!(kind, Some(LocationType::Stop)),
        LocationType::Station => matches!(kind, Some(LocationType::Station)),
        LocationType::Entrance => matches!(kind, Some(LocationType::Entrance)),
        LocationType::GenericNode => matches!(kind, Some(LocationType::GenericNode)),
        LocationType::BoardingArea => matches!(kind, Some(LocationType::BoardingArea)),
    }
}

/// The latitude of a row.
pub(crate) fn latitude_in(rows: &Rows, row: usize, columns: &StopColumns) -> Option<i64>
    requires { row < length rows.now }
    ensures { result ≡ latitude_in columns.now (row_at rows.now row) }
{
    latitude_of(field_in(rows, row, columns.lat))
}

/// The longitude of a row.
pub(crate) fn longitude_in(rows: &Rows, row: usize, columns: &StopColumns) -> Option<i64>
    requires { row < length rows.now }
    ensures { result ≡ longitude_in columns.now (row_at rows.now row) }
{
    longitude_of(field_in(rows, row, columns.lon))
}
