//! The rows of `stop_times.txt` are read, one after another, up to the first that is bad by itself.

ghost use Rattle.std.specs.Prelude.{◌≡◌, ◌≤◌, ◌<◌, ◌^◌, None, length, IfOk, IfErr};
ghost use Rattle.gtfs_fields.specs.RowByRow.{IsReading};
ghost use Rattle.table_rows.specs.Values.{rows_of};
ghost use Rattle.table_rows.specs.Outcome.{Refuses, never};
ghost use Rattle.sequence_tables.specs.RowsFrom.{rows_from};
ghost use Rattle.sequence_tables.specs.StopTimes.{stop_time_columns, stop_times_of};
ghost use Rattle.sequence_tables.specs.StopTimeReads.{own_reason_at, AreReads};

use crate::last_trip::LastTrip;
use crate::reads::{Reads, ReadsSoFar};
use crate::stop_time_columns::StopTimeColumns;
use crate::stop_time_row::{read_row, stop_time_columns};
use gtfs_fields::RowReader;
use map_base::{NoMemory, StationId};
use route_tables::KnownTrips;
use std::alloc::Global;
use stop_table::KnownStops;
use table_rows::{FeedFault, Table, Why, bad_row, field_of, reason_of_header, row_reader_of};

/// What the rows say that are read in full, up to the first row that is bad by itself, or the last. The header was
/// read.
fn read_rows(
    alloc: Global,
    trips: &KnownTrips,
    stops: &KnownStops,
    reader: &mut RowReader,
    columns: &StopTimeColumns,
) -> Result<Reads<StationId>, NoMemory>
    requires reading { IsReading reader.old }
    requires few_rows { length (rows_from reader.old) ≤ 2 ^ 32 }
    requires few_trips { length trips.now.ids ≤ 2 ^ 32 }
    requires columns { columns.now ≡ stop_time_columns (rows_from reader.old) }
    requires good { own_reason_at trips.now stops.now (rows_from reader.old) 0 ≡ None }
    ensures { IfOk result (AreReads trips.now stops.now (rows_from reader.old)) }
{
    let mut so_far = ReadsSoFar::new(alloc);
    let mut last = LastTrip::new(alloc, trips);
    let mut place = 1;
    while reader.next()? {
        let row = reader.row();
        let trip = last.next(trips, field_of(&row, columns.trip))?;
        match read_row(trips, stops, &row, columns, trip) {
            Ok(read) => so_far.note(place as u32, read)?,
            Err(why) => return Ok(so_far.up_to(place, Some(why))),
        }
        place += 1;
    }
    Ok(so_far.up_to(place, None))
}

/// What the rows of a file say that are read in full, up to the first row that is bad by itself, or the last; or what
/// is wrong with its header. The bytes are let go.
pub(crate) fn read_stop_times(
    alloc: Global,
    trips: &KnownTrips,
    stops: &KnownStops,
    bytes: Vec<u8>,
) -> Result<Reads<StationId>, FeedFault>
    requires few_rows { length (rows_of bytes.items) ≤ 2 ^ 32 }
    requires few_trips { length trips.now.ids ≤ 2 ^ 32 }
    ensures header { IfOk result (λ _. 0 < length (rows_of bytes.items)) }
    ensures read { IfOk result (AreReads trips.now stops.now (rows_of bytes.items)) }
    ensures refused { IfErr result (λ fault. Refuses never fault (stop_times_of trips.now stops.now (rows_of bytes.items))) }
{
    let mut reader = row_reader_of(alloc, &bytes)?;
    if !reader.next()? {
        return Err(bad_row(Table::StopTimes, 0, Why::MissingColumn));
    }
    let header = reader.row();
    let columns = stop_time_columns(&header);
    let required = [columns.trip, columns.stop, columns.sequence];
    if let Some(why) = reason_of_header(&header, &required) {
        return Err(bad_row(Table::StopTimes, 0, why));
    }
    Ok(read_rows(alloc, trips, stops, &mut reader, &columns)?)
}
