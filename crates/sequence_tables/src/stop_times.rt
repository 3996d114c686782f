//! The stations of each trip.

ghost use Rattle.std.specs.Prelude.{◌≡◌, ◌≤◌, ◌<◌, ◌^◌, length, map, IfOk, All};
ghost use Rattle.table_rows.specs.Values.{rows_of};
ghost use Rattle.table_rows.specs.Outcome.{Answers, never};
ghost use Rattle.sequence_tables.specs.StopTimes.{stop_times_of};
ghost use Rattle.sequence_tables.specs.StopTimeReads.{AreNumbered};
ghost use Rattle.sequence_tables.specs.StationsOfTrips.{station_there, stations_by_key};

use crate::first_refused::first_refused;
use crate::stop_times_read::read_stop_times;
use map_base::{NoMemory, Sequence, StationId};
use ordered_entries::OrderedEntries;
use route_tables::KnownTrips;
use std::alloc::Global;
use stop_table::KnownStops;
use table_rows::{FeedFault, Table, bad_row};

/// The stations at some places.
fn stations_at(
    alloc: Global,
    places: &[u32],
    stations: &[StationId],
) -> Result<Vec<StationId>, NoMemory>
    requires { All (λ place. place < length stations.now) places.now }
    ensures { IfOk result (λ found. found.items ≡ map (station_there stations.now) places.now) }
{
    let mut found = Vec::with_capacity(alloc, places.len())?;
    for k in 0..places.len() {
        found.push(stations[places[k] as usize])?;
    }
    Ok(found)
}

/// The stations of the first keys, each by rising sequences.
fn stations_by_key(
    alloc: Global,
    count: usize,
    ordered: &OrderedEntries,
    stations: &[StationId],
) -> Result<Vec<Sequence<StationId>>, NoMemory>
    requires few { count ≤ 2 ^ 32 }
    requires counted { length stations.now ≡ length ordered.now }
    ensures { IfOk result (λ all. all.items ≡ stations_by_key stations.now ordered.now count) }
{
    let mut all = Vec::with_capacity(alloc, count)?;
    for key in 0..count {
        let found = stations_at(alloc, ordered.places_of(key as u32), stations)?;
        all.push(Sequence::of(found))?;
    }
    Ok(all)
}

/// The stations of each trip by rising sequence, in the order of the trips, or the first bad row of the table. Those
/// of a trip that is not selected are none. The bytes are let go once they are read.
pub(crate) fn stop_times_in(
    alloc: Global,
    trips: &KnownTrips,
    stops: &KnownStops,
    bytes: Vec<u8>,
) -> Result<Vec<Sequence<StationId>>, FeedFault>
    requires few { length (rows_of bytes.items) ≤ 2 ^ 32 }
    requires numbered { AreNumbered trips.now }
    ensures { Answers never (λ stations. stations.items) result (stop_times_of trips.now stops.now (rows_of bytes.items)) }
{
    let reads = read_stop_times(alloc, trips, stops, bytes)?;
    let ordered = OrderedEntries::of(alloc, reads.entries.into_vec())?;
    let repeat = ordered.first_repeat();
    if let Some(bad) = first_refused(repeat, &reads.places, reads.upto, reads.stopped) {
        return Err(bad_row(Table::StopTimes, bad.0, bad.1));
    }
    let count = trips.lines.as_slice().len();
    Ok(stations_by_key(alloc, count, &ordered, reads.values.as_slice())?)
}
