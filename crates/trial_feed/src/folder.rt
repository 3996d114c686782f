//! The folder of a trial.

ghost use Rattle.std.specs.Prelude.{◌≡◌, ◌≤◌, ◌+◌, ◌++◌, [], IfOk, OnOk};
ghost use Rattle.trial_feed.specs.Lines.{stops_of};
ghost use Rattle.trial_feed.specs.Rows.{stop, call};
ghost use Rattle.trial_feed.specs.Folder.{trial_folder, folder_of, stops_table, routes_table, trips_table, calls_table, row_north, calls_from, lines_from};

use crate::lattice::{Place, line_count, side};
use crate::rows::{push_call, push_route, push_stop, push_trip};
use crate::walks::lines_of;
use files_door::SteadyFiles;
use map_base::{NoMemory, Text};
use std::alloc::Global;

/// The files of the folder `trial` that this number makes. None of them fails, and none is begun.
pub fn trial_files(alloc: Global, trial: u32) -> Result<SteadyFiles, NoMemory>
    ensures { IfOk result (λ files. files ≡ record { files = trial_folder trial; unread = [] }) }
{
    let side = side(trial);
    let count = line_count(trial);
    let lines = lines_of(alloc, trial)?;
    let stops = stops_table(alloc, side)?;
    let routes = routes_table(alloc, count)?;
    let trips = trips_table(alloc, count)?;
    let calls = calls_table(alloc, lines.as_slice())?;
    folder_of(alloc, stops, routes, trips, calls)
}

/// The folder of these four tables.
fn folder_of(
    alloc: Global,
    stops: Vec<u8>,
    routes: Vec<u8>,
    trips: Vec<u8>,
    calls: Vec<u8>,
) -> Result<SteadyFiles, NoMemory>
    ensures { IfOk result (λ files. files ≡ record { files = folder_of stops.items routes.items trips.items calls.items; unread = [] }) }
{
    let files = vec![in alloc;
        (Text::of(alloc, "trial/stops.txt")?, stops),
        (Text::of(alloc, "trial/routes.txt")?, routes),
        (Text::of(alloc, "trial/trips.txt")?, trips),
        (Text::of(alloc, "trial/stop_times.txt")?, calls),
    ]?;
    Ok(SteadyFiles::with(files))
}

/// The table of stations: all places of a lattice of this side, by rising number north, then east.
fn stops_table(alloc: Global, side: u32) -> Result<Vec<u8>, NoMemory>
    requires { side ≤ 20 }
    ensures { IfOk result (λ text. text.items ≡ stops_table side) }
{
    let mut text = Vec::from_slice(alloc, b"stop_id,stop_name,stop_lat,stop_lon\n")?;
    for north in 0..side + 1 {
        push_row_north(&mut text, side, north)?;
    }
    Ok(text)
}

/// Appends the stations of one number north.
fn push_row_north(text: &mut Vec<u8>, side: u32, north: u32) -> Result<(), NoMemory>
    requires { side ≤ 20 }
    ensures { OnOk result (text.new.items ≡ text.old.items ++ row_north north (side + 1)) }
{
    for east in 0..side + 1 {
        push_stop(text, Place { east, north })?;
    }
    Ok(())
}

/// The table of so many lines.
fn routes_table(alloc: Global, count: u32) -> Result<Vec<u8>, NoMemory>
    ensures { IfOk result (λ text. text.items ≡ routes_table count) }
{
    let mut text = Vec::from_slice(alloc, b"route_id,route_type,route_color\n")?;
    for number in 0..count {
        push_route(&mut text, number)?;
    }
    Ok(text)
}

/// The table of the trips of so many lines.
fn trips_table(alloc: Global, count: u32) -> Result<Vec<u8>, NoMemory>
    ensures { IfOk result (λ text. text.items ≡ trips_table count) }
{
    let mut text = Vec::from_slice(alloc, b"route_id,service_id,trip_id\n")?;
    for number in 0..count {
        push_trip(&mut text, number)?;
    }
    Ok(text)
}

/// The table of the calls of all lines' trips.
fn calls_table(alloc: Global, lines: &[Vec<Place>]) -> Result<Vec<u8>, NoMemory>
    ensures { IfOk result (λ text. text.items ≡ calls_table (stops_of lines.now)) }
{
    let mut text = Vec::from_slice(alloc, b"trip_id,stop_id,stop_sequence\n")?;
    for (number, stops) in lines.iter().enumerate() {
        push_calls(&mut text, number as u64, stops.as_slice())?;
    }
    Ok(text)
}

/// Appends the calls of a line's trip, which are numbered from 1.
fn push_calls(text: &mut Vec<u8>, number: u64, stops: &[Place]) -> Result<(), NoMemory>
    ensures { OnOk result (text.new.items ≡ text.old.items ++ calls_from number 1 stops.now) }
{
    for (place, stop) in stops.iter().enumerate() {
        push_call(text, number, place as u64 + 1, *stop)?;
    }
    Ok(())
}
