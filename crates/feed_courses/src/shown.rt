//! What of a feed is shown, and what that uses.

ghost use Rattle.std.specs.Prelude.{◌≡◌, ℕ, ◌<◌, ◌^◌, ◌||◌, ◌==◌, IfOk, All, length, map};
ghost use Rattle.std.specs.List.{list_any};
ghost use Rattle.map_base.specs.declared.ids.StationId.{StationId};
ghost use Rattle.feed_courses.specs.Flags.{flag_at};
ghost use Rattle.feed_courses.specs.Shown.{is_shown, lines_with, shown_patterns, stations_in};

use crate::flags::{flag, flagged};
use map_base::{NoMemory, StationId};
use std::alloc::Global;
use transit_feed::{Line, Pattern, Tables};

/// The patterns of lines that are not hidden, in the order of the feed.
#[tactic(auto, unfolding(crate::specs::Shown::shown_patterns))]
pub(crate) fn shown_patterns<'a>(
    alloc: Global,
    tables: &'a Tables,
) -> Result<Vec<&'a Pattern>, NoMemory>
    ensures { IfOk result (λ shown. map (λ pattern. pattern.now) shown.items ≡ shown_patterns tables.now) }
{
    let mut shown = Vec::new(alloc);
    for pattern in &tables.patterns {
        if is_shown(&tables.lines, pattern) {
            shown.push(pattern)?;
        }
    }
    Ok(shown)
}

fn is_shown(lines: &[Line], pattern: &Pattern) -> bool
    requires { pattern.now.line.0 < length lines.now }
    ensures { result ≡ is_shown lines.now pattern.now }
{
    !lines[pattern.line.0 as usize].hidden
}

/// The numbers below `count` of the lines that have one of these patterns, rising.
pub(crate) fn lines_with(
    alloc: Global,
    count: usize,
    patterns: &[&Pattern],
) -> Result<Vec<u32>, NoMemory>
    requires few { count < 2 ^ 32 }
    requires in_range { All (λ pattern. pattern.now.line.0 < count) patterns.now }
    ensures { IfOk result (λ lines. lines.items ≡ lines_with count (map (λ pattern. pattern.now) patterns.now)) }
{
    let mut flags = vec![in alloc; false; count]?;
    for pattern in patterns {
        flag(&mut flags, pattern.line.0);
    }
    flagged(alloc, &flags)
}

/// The numbers below `count` of the stations that stand in one of these patterns, rising.
pub(crate) fn stations_in(
    alloc: Global,
    count: usize,
    patterns: &[&Pattern],
) -> Result<Vec<u32>, NoMemory>
    requires few { count < 2 ^ 32 }
    requires in_range { All (λ pattern. All (λ (s : StationId). s.0 < count) pattern.now.stops) patterns.now }
    ensures { IfOk result (λ stations. stations.items ≡ stations_in count (map (λ pattern. pattern.now) patterns.now)) }
{
    let mut flags = vec![in alloc; false; count]?;
    for pattern in patterns {
        flag_stops(&mut flags, pattern.stops.as_slice());
    }
    flagged(alloc, &flags)
}

/// Flags the stations of a pattern.
fn flag_stops(flags: &mut [bool], stops: &[StationId])
    requires in_range { All (λ (s : StationId). s.0 < length flags.old) stops.now }
    ensures count { length flags.new ≡ length flags.old }
    ensures flagged { (k : ℕ) → flag_at flags.new k ≡ (flag_at flags.old k || list_any (λ (s : StationId). s.0 == k) stops.now) }
{
    for stop in stops {
        flag(flags, stop.0);
    }
}
