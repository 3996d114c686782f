//! The lines that call at each station.

ghost use Rattle.std.specs.Prelude.{◌≡◌, ◌<◌, ◌^◌, All, IfOk, OnOk, length};
ghost use Rattle.map_base.specs.declared.ids.StationId.{StationId};
ghost use Rattle.transit_feed.specs.declared.pattern.Pattern.{Pattern};
ghost use Rattle.line_calls.specs.Tables.{among, callers_in, is_last, is_station, lists_in, served_by, AreInRange, IsTable, Notes};

use crate::lists::{empty_lists, push_at};
use map_base::{NoMemory, StationId};
use std::alloc::Global;
use transit_feed::Pattern;

/// For each of so many stations the numbers of the lines that call there, rising, by the patterns of each line.
pub(crate) fn call_table(
    alloc: Global,
    stations: usize,
    patterns: &[Pattern],
    by_line: &[Vec<u32>],
) -> Result<Vec<Vec<u32>>, NoMemory>
    requires few { length by_line.now < 2 ^ 32 }
    requires known { All (AreInRange (length patterns.now)) (lists_in by_line.now) }
    requires stops { All (λ (p : Pattern). All (λ (s : StationId). s.0 < stations) p.stops) patterns.now }
    ensures { IfOk result (λ table. IsTable stations (callers_in patterns.now (lists_in by_line.now) (length by_line.now)) (lists_in table.items)) }
{
    let mut table = empty_lists(alloc, stations)?;
    for line in 0..by_line.len() {
        note_line(&mut table, patterns, by_line[line].as_slice(), line as u32)?;
    }
    Ok(table)
}

/// Notes a line at the stations of its patterns.
fn note_line(
    table: &mut Vec<Vec<u32>>,
    patterns: &[Pattern],
    numbers: &[u32],
    line: u32,
) -> Result<(), NoMemory>
    requires known { AreInRange (length patterns.now) numbers.now }
    requires stops { All (λ (p : Pattern). All (λ (s : StationId). s.0 < length table.old.items) p.stops) patterns.now }
    ensures { OnOk result (Notes line (served_by patterns.now numbers.now) (lists_in table.old.items) (lists_in table.new.items)) }
{
    for number in numbers {
        note_stops(table, patterns[*number as usize].stops.as_slice(), line)?;
    }
    Ok(())
}

/// Notes a line at these stations.
fn note_stops(table: &mut Vec<Vec<u32>>, stops: &[StationId], line: u32) -> Result<(), NoMemory>
    requires { All (λ (s : StationId). s.0 < length table.old.items) stops.now }
    ensures { OnOk result (Notes line (among stops.now) (lists_in table.old.items) (lists_in table.new.items)) }
{
    for stop in stops {
        note_call(table, *stop, line)?;
    }
    Ok(())
}

/// Notes a line at a station, where it is not the last that is noted there.
fn note_call(table: &mut Vec<Vec<u32>>, station: StationId, line: u32) -> Result<(), NoMemory>
    requires { station.0 < length table.old.items }
    ensures { OnOk result (Notes line (is_station station) (lists_in table.old.items) (lists_in table.new.items)) }
{
    if is_last(table[station.0 as usize].as_slice(), line) {
        return Ok(());
    }
    push_at(table, station.0 as usize, line)?;
    Ok(())
}

/// Whether a number is the last of these.
fn is_last(numbers: &[u32], number: u32) -> bool
    ensures { result ≡ is_last number numbers.now }
{
    if numbers.len() == 0 {
        return false;
    }
    numbers[numbers.len() - 1] == number
}
