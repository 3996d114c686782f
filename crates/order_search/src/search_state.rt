//! A search of a part under way.

ghost use Rattle.std.specs.Prelude.{◌≡◌, ◌<◌, length, None, MatchOption};
ghost use Rattle.order_search.specs.Left.{is_open, first_open};
ghost use Rattle.order_search.specs.Searching.{IsUnderWay, AreShut, IsOpenAt};

use crate::child::Child;
use map_base::{LineId, SegId, Sequence};
use order_model::Problem;
use part_bounds::PartBounds;

/// A part that is searched, with the lines placed so far; the bound of the part before any line is placed; the children
/// that wait for their turn, those of deeper nodes behind those of higher ones; the incumbent, which is the least cost so
/// far and the orders of the part's segments that had it first; and how many branch nodes were met, of how many that are
/// allowed.
#[derive(Drop)]
pub(crate) struct Search<'a> {
    pub(crate) problem: &'a Problem,
    pub(crate) part: &'a [SegId],
    pub(crate) bounds: PartBounds<'a>,
    pub(crate) root_bound: u64,
    pub(crate) children: Vec<Child>,
    pub(crate) cost: u64,
    pub(crate) lists: Vec<Sequence<LineId>>,
    pub(crate) spent: u32,
    pub(crate) budget: u32,
}

/// The place in the part of the first segment on which a line is left, where none is left on those before `at`.
#[tactic(auto, using(crate::proofs::Opening::shut_more, crate::proofs::Opening::opens_at, crate::proofs::Opening::shut_all))]
pub(crate) fn next_open(search: &Search, at: usize) -> Option<usize>
    requires under_way { IsUnderWay search.now }
    requires shut { AreShut at search.now }
    ensures { MatchOption result (first_open search.now.bounds.segs search.now.bounds.part search.now.bounds.placed ≡ None) (λ i. IsOpenAt i search.now) }
{
    for i in at..search.part.len() {
        if is_open(search, search.part[i]) {
            return Some(i);
        }
    }
    None
}

/// Whether a line is left on a segment.
fn is_open(search: &Search, s: SegId) -> bool
    requires under_way { IsUnderWay search.now }
    requires known { s.0 < length search.now.bounds.segs }
    ensures { result ≡ is_open search.now.bounds.segs search.now.bounds.placed s }
{
    let segs = search.problem.segs();
    let lines = segs[s.0 as usize].as_slice();
    search.bounds.placed(s).len() < lines.len()
}
