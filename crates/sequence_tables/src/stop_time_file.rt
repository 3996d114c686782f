//! The stations of each trip by the file `stop_times.txt`, which has to be there.

ghost use Rattle.std.specs.Prelude.{◌≤◌, ◌^◌, length, option_map, IfSome};
ghost use Rattle.table_rows.specs.Values.{rows_of};
ghost use Rattle.table_rows.specs.Outcome.{Answers, never};
ghost use Rattle.sequence_tables.specs.StopTimes.{stop_times_of_file};
ghost use Rattle.sequence_tables.specs.StopTimeReads.{AreNumbered};

use crate::stop_times::stop_times_in;
use map_base::{Sequence, StationId};
use route_tables::KnownTrips;
use std::alloc::Global;
use stop_table::KnownStops;
use table_rows::{FeedFault, Table, missing_file};

/// The stations of each trip by the bytes of the table, or its first bad row.
pub fn stop_times_in_file(
    alloc: Global,
    trips: &KnownTrips,
    stops: &KnownStops,
    bytes: Option<Vec<u8>>,
) -> Result<Vec<Sequence<StationId>>, FeedFault>
    requires few { IfSome bytes (λ b. length (rows_of b.items) ≤ 2 ^ 32) }
    requires numbered { AreNumbered trips.now }
    ensures { Answers never (λ stations. stations.items) result (stop_times_of_file trips.now stops.now (option_map (λ v. v.items) bytes)) }
{
    match bytes {
        None => Err(missing_file(Table::StopTimes)),
        Some(bytes) => stop_times_in(alloc, trips, stops, bytes),
    }
}
