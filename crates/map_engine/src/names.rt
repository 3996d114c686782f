//! The names of stations and lines.

ghost use Rattle.std.specs.Prelude.{◌≡◌, map, IfOk};
ghost use Rattle.transit_feed.specs.declared.station.Station.{Station as FeedStation};
ghost use Rattle.transit_feed.specs.declared.line.Line.{Line as FeedLine};
ghost use Rattle.graph_maps.specs.Tables.{names_by};

use map_base::{NoMemory, Sequence, Text};
use std::alloc::Global;
use svg_writer::Names;
use transit_feed::{Line, Station, Tables};

/// The names of all stations, and the names and colours of all lines, each in the order of their numbers.
pub fn names_of(alloc: Global, tables: &Tables) -> Result<Names, NoMemory>
    ensures { IfOk result (λ names. names ≡ names_by tables.now) }
{
    let stations = station_names(alloc, tables.stations.as_slice())?;
    let lines = line_names(alloc, tables.lines.as_slice())?;
    Ok(Names {
        stations: Sequence::of(stations),
        lines: Sequence::of(lines),
    })
}

/// The name of each station.
fn station_names(alloc: Global, stations: &[Station]) -> Result<Vec<Text>, NoMemory>
    ensures { IfOk result (λ names. names.items ≡ map (λ (s : FeedStation). s.name) stations.now) }
{
    let mut names = Vec::with_capacity(alloc, stations.len())?;
    for station in stations {
        let name = Text::of(alloc, station.name.as_str())?;
        names.push(name)?;
    }
    Ok(names)
}

/// The name and the colour of each line.
fn line_names(alloc: Global, lines: &[Line]) -> Result<Vec<(Text, [u8; 3])>, NoMemory>
    ensures { IfOk result (λ names. names.items ≡ map (λ (l : FeedLine). (l.name, l.colour)) lines.now) }
{
    let mut names = Vec::with_capacity(alloc, lines.len())?;
    for line in lines {
        let name = Text::of(alloc, line.name.as_str())?;
        names.push((name, line.colour))?;
    }
    Ok(names)
}
