//! What a row of `stop_times.txt` says.

ghost use Rattle.std.specs.Prelude.{◌≡◌, ◌≤◌, ◌<◌, ◌^◌, ℕ, None, Some, [], ◌∷◌, length, codes, IfSome, IfOk, IfErr, is_some, is_none, ◌&&◌, not, false, option_and_then, unwrap_or};
ghost use Rattle.std.specs.List.{slice_index_or};
ghost use Rattle.table_rows.specs.Cells.{field_in, is_empty};
ghost use Rattle.stop_table.specs.Leads.{station_of_id};
ghost use Rattle.sequence_tables.specs.StopTimes.{stop_time_columns, sequence_in, station_in, station_at};
ghost use Rattle.sequence_tables.specs.StopTimeReads.{own_reason, read_in, FailsInFull};
ghost use Rattle.route_tables.specs.Trips.{trip_place, line_at};
ghost use Rattle.table_rows.specs.declared.why.Why.TheVariants as why;

use crate::reads::Read;
use crate::stop_time_columns::StopTimeColumns;
use gtfs_fields::Row;
use map_base::StationId;
use ordered_entries::Entry;
use route_tables::KnownTrips;
use stop_table::KnownStops;
use table_rows::{Why, column_in, field_of, number_of, row_ends_early};

/// The columns that a header names.
pub(crate) fn stop_time_columns(header: &Row) -> StopTimeColumns
    ensures { result ≡ stop_time_columns (header.now ∷ []) }
{
    StopTimeColumns {
        trip: column_in(header, b"trip_id"),
        stop: column_in(header, b"stop_id"),
        sequence: column_in(header, b"stop_sequence"),
    }
}

/// Whether the trip at a place is selected.
fn is_line_at(trips: &KnownTrips, place: usize) -> bool
    ensures { result ≡ is_some (line_at trips.now place) }
{
    let lines = trips.lines.as_slice();
    if place < lines.len() {
        lines[place].is_some()
    } else {
        false
    }
}

/// Whether a row is read in full, told the place of its trip and its stop: its trip is selected, and its stop is
/// not empty.
fn is_read(trips: &KnownTrips, trip: usize, stop: &[u8]) -> bool
    ensures { result ≡ (is_some (line_at trips.now trip) && not (is_empty stop.now)) }
{
    !stop.is_empty() && is_line_at(trips, trip)
}

/// The number of the station to which an id leads.
fn station_of_id(stops: &KnownStops, id: &[u8]) -> Option<u32>
    ensures { result ≡ station_of_id stops.now id.now }
{
    match stops.ids.place_of(id) {
        None => None,
        Some(place) => {
            let stations = stops.stations.as_slice();
            if place < stations.len() {
                stations[place]
            } else {
                None
            }
        }
    }
}

/// What a row says that is read in full, or why it can't be, told its trip.
fn read_in_full(
    stops: &KnownStops,
    row: &Row,
    columns: &StopTimeColumns,
    trip: usize,
) -> Result<Read<StationId>, Why>
    requires few { trip < 2 ^ 32 }
    ensures read { IfOk result (λ read. read ≡ record { entry = record { key = trip; sequence = unwrap_or (sequence_in columns.now row.now) 0 }; value = station_at stops.now columns.now row.now }) }
    ensures sequence { IfOk result (λ _. is_none (sequence_in columns.now row.now) ≡ false) }
    ensures station { IfOk result (λ _. is_none (station_in stops.now columns.now row.now) ≡ false) }
    ensures bad { IfErr result (λ fault. FailsInFull stops.now columns.now row.now fault) }
{
    let Some(sequence) = number_of(field_of(row, columns.sequence)) else {
        return Err(Why::BadWhole);
    };
    let Some(station) = station_of_id(stops, field_of(row, columns.stop)) else {
        return Err(Why::UnknownStop);
    };
    Ok(Read {
        entry: Entry {
            key: trip as u32,
            sequence,
        },
        value: StationId(station),
    })
}

/// What a row says, where it is read in full, or what is wrong with it by itself. Each of its trip and its stop is
/// looked up once.
pub(crate) fn read_row(
    trips: &KnownTrips,
    stops: &KnownStops,
    row: &Row,
    columns: &StopTimeColumns,
    trip: Option<usize>,
) -> Result<Option<Read<StationId>>, Why>
    requires trip { trip ≡ trip_place trips.now (field_in row.now columns.now.trip) }
    requires few { IfSome trip (λ place. place < 2 ^ 32) }
    ensures bad { IfErr result (λ fault. own_reason trips.now stops.now columns.now row.now ≡ Some fault) }
    ensures good { IfOk result (λ _. own_reason trips.now stops.now columns.now row.now ≡ None) }
    ensures read { IfOk result (λ read. read ≡ read_in trips.now stops.now columns.now row.now) }
{
    if row_ends_early(row, &[columns.trip, columns.stop, columns.sequence]) {
        return Err(Why::WrongFields);
    }
    if !row.is_text() {
        return Err(Why::NotUtf8);
    }
    let Some(trip) = trip else {
        return Err(Why::UnknownTrip);
    };
    if !is_read(trips, trip, field_of(row, columns.stop)) {
        return Ok(None);
    }
    match read_in_full(stops, row, columns, trip) {
        Ok(read) => Ok(Some(read)),
        Err(why) => Err(why),
    }
}
