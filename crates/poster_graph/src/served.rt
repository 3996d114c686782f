//! A drawn line graph, and what is known of it.

ghost use Rattle.std.specs.Prelude.{◌≡◌, option_map, slice_get};
ghost use Rattle.poster_rules.specs.Stations.{callers_at, has_line};

use graph_core::LineGraph;
use map_base::{LineId, Sequence};
use octi_grid::{Drawing, Walk};
use svg_writer::Names;

/// A drawn line graph with the names of its stations and lines, and the lines that call at each of its nodes, rising.
#[derive(Clone, Copy)]
pub struct Served<'a> {
    pub graph: &'a LineGraph,
    pub names: &'a Names,
    pub drawing: &'a Drawing,
    pub callers: &'a Sequence<Sequence<LineId>>,
}

/// The lines that call at node n.
pub fn callers_at<'a>(callers: &'a Sequence<Sequence<LineId>>, n: u32) -> &'a [LineId]
    ensures { result.now ≡ callers_at callers.now n }
{
    match callers.as_slice().get(n as usize) {
        Some(lines) => lines.as_slice(),
        None => &[],
    }
}

/// The walk of segment s, if there is one.
pub(crate) fn walk_of(walks: &Sequence<Walk>, s: u32) -> Option<&Walk>
    ensures { slice_get walks.now s ≡ option_map (λ w. w.now) result }
{
    walks.as_slice().get(s as usize)
}

/// Whether a line is one of these.
pub fn has_line(line: LineId, lines: &[LineId]) -> bool
    ensures { result ≡ has_line line lines.now }
{
    for other in lines {
        if other.0 == line.0 {
            return true;
        }
    }
    false
}
