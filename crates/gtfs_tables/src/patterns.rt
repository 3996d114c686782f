//! The patterns of a feed: the stations that its trips serve.

ghost use Rattle.std.specs.Prelude.{◌≡◌, length, option_map, IfOk};
ghost use Rattle.gtfs_tables.specs.PatternKeys.{pattern_of_key};
ghost use Rattle.gtfs_tables.specs.Patterns.{apart, pattern_of, trip_pattern, patterns_of};

use crate::pattern_set::{PatternKey, PatternSet};
use map_base::{LineId, NoMemory, Sequence, StationId};
use std::alloc::Global;
use transit_feed::Pattern;

/// Stations with immediate repeats dropped.
fn apart(alloc: Global, stations: &[StationId]) -> Result<Vec<StationId>, NoMemory>
    ensures { IfOk result (λ kept. kept.items ≡ apart stations.now) }
{
    let mut kept = Vec::from_slice(alloc, stations)?;
    kept.dedup();
    Ok(kept)
}

/// The pattern of a line, stations and a shape, where there are two stations.
fn key_of(line: u32, stops: Vec<StationId>, shape: Option<u32>) -> Option<PatternKey>
    ensures { option_map pattern_of_key result ≡ pattern_of line stops.items shape }
{
    if stops.len() < 2 {
        return None;
    }
    Some(PatternKey {
        line: LineId(line),
        stops,
        shape,
    })
}

/// The pattern of a trip, where it is selected.
fn key_of_trip(
    alloc: Global,
    line: Option<u32>,
    stations: &[StationId],
    shape: Option<u32>,
) -> Result<Option<PatternKey>, NoMemory>
    ensures { IfOk result (λ key. option_map pattern_of_key key ≡ trip_pattern line stations.now shape) }
{
    match line {
        None => Ok(None),
        Some(line) => {
            let stops = apart(alloc, stations)?;
            Ok(key_of(line, stops, shape))
        }
    }
}

/// The patterns of a feed, told the line, the stations by rising sequence and the shape of each trip.
#[tactic(auto, using(crate::proofs::PatternLemmas::seen_all))]
pub(crate) fn patterns_of(
    alloc: Global,
    lines: &[Option<u32>],
    stations: &[Sequence<StationId>],
    shapes: &[Option<u32>],
) -> Result<Vec<Pattern>, NoMemory>
    requires stations { length stations.now ≡ length lines.now }
    requires shapes { length shapes.now ≡ length lines.now }
    ensures { IfOk result (λ patterns. patterns.items ≡ patterns_of lines.now stations.now shapes.now) }
{
    let mut seen = PatternSet::new(alloc);
    for trip in 0..lines.len() {
        let key = key_of_trip(alloc, lines[trip], stations[trip].as_slice(), shapes[trip])?;
        seen.note_some(key)?;
    }
    seen.to_patterns(alloc)
}
