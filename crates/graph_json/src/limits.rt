//! How many of each thing the features of a graph file have.

ghost use Rattle.std.specs.Prelude.{◌≡◌, length, IfOk, OnOk};
ghost use Rattle.graph_json.specs.Limits.{limit_met, lines_on, with_lines, names_in, above};

use indexmap::IndexSet;
use map_base::{Limit, LimitKind, LineId, NoMemory, Sequence, Text};
use std::alloc::Global;

/// The first limit that is met by segments with these lines and by nodes with these names: of lines, of stations, of
/// nodes or of segments.
pub(crate) fn limit_met(
    alloc: Global,
    lines: &[Sequence<LineId>],
    names: &[Option<Text>],
) -> Result<Option<Limit>, NoMemory>
    ensures { IfOk result (λ met. met ≡ limit_met lines.now names.now) }
{
    let of_lines = above(LimitKind::Lines, lines_on(alloc, lines)?);
    let of_stations = above(LimitKind::Stations, stations_in(names));
    let of_nodes = above(LimitKind::Nodes, names.len());
    let of_segments = above(LimitKind::Segments, lines.len());
    Ok(of_lines.or(of_stations.or(of_nodes.or(of_segments))))
}

/// The limit that a count is above.
fn above(kind: LimitKind, count: usize) -> Option<Limit>
    ensures { result ≡ above kind count }
{
    if kind.most() < count as u64 {
        Some(Limit::above(kind))
    } else {
        None
    }
}

/// How many of these names are there.
fn stations_in(names: &[Option<Text>]) -> usize
    ensures { result ≡ length (names_in names.now) }
{
    let mut stations = 0;
    for name in names {
        if name.is_some() {
            stations += 1;
        }
    }
    stations
}

/// How many different lines there are on segments.
fn lines_on(alloc: Global, segments: &[Sequence<LineId>]) -> Result<usize, NoMemory>
    ensures { IfOk result (λ count. count ≡ length (lines_on segments.now)) }
{
    let mut known = IndexSet::new(alloc);
    for lines in segments {
        add_lines(&mut known, lines.as_slice())?;
    }
    Ok(known.len())
}

/// Adds the lines of a segment.
fn add_lines(known: &mut IndexSet<LineId>, lines: &[LineId]) -> Result<(), NoMemory>
    ensures { OnOk result (known.new.keys ≡ with_lines known.old.keys lines.now) }
{
    for line in lines {
        known.insert(*line)?;
    }
    Ok(())
}
