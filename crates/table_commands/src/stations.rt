//! What the command `stations` prints.

ghost use Rattle.std.specs.Prelude.{◌≡◌, ◌≤◌, ◌++◌, All, IfOk, OnOk, vec_len, unsigned_abs};
ghost use Rattle.transit_feed.specs.Feeds.{IsPlaced};
ghost use Rattle.feed_courses.specs.Places.{feed_band};
ghost use Rattle.table_commands.specs.Stations.{station_line, stations_text};

use fixed_plane::{band_of, project};
use gtfs_tables::Station;
use map_base::NoMemory;
use printed_text::push_line;
use std::alloc::Global;

/// A line `X Y ID` for each station, in order. The band is that of the first one.
pub fn text_of_stations(alloc: Global, stations: &[Station]) -> Result<Vec<u8>, NoMemory>
    requires { All IsPlaced stations.now }
    ensures { IfOk result (λ text. text.items ≡ stations_text stations.now) }
{
    let band = band_of_feed(stations);
    let mut text = Vec::new(alloc);
    let mut numbers = String::new(alloc);
    for station in stations {
        push_station(&mut text, &mut numbers, station, band)?;
    }
    Ok(text)
}

/// The band of the first station.
fn band_of_feed(stations: &[Station]) -> usize
    requires { All IsPlaced stations.now }
    ensures value { result ≡ feed_band stations.now }
    ensures in_table { result ≤ 18 }
{
    match stations.first() {
        Some(first) => band_of(first.lat),
        None => 0,
    }
}

/// Appends the line of a station.
fn push_station(
    text: &mut Vec<u8>,
    numbers: &mut String,
    station: &Station,
    band: usize,
) -> Result<(), NoMemory>
    requires placed { IsPlaced station.now }
    requires in_table { band ≤ 18 }
    ensures { OnOk result (text.new.items ≡ text.old.items ++ station_line band station.now) }
{
    let point = project(station.lat, station.lon, band);
    push_line(text, numbers, point, station.id.as_str())
}
