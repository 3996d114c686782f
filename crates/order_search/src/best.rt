//! The best orders that a search has met.

ghost use Rattle.std.specs.Prelude.{◌≡◌, map, None, IfOk, OnOk};
ghost use Rattle.order_model.specs.Problems.{lines_on};
ghost use Rattle.order_search.specs.Left.{first_open};
ghost use Rattle.order_search.specs.LiveTrees.{better};
ghost use Rattle.order_search.specs.Searching.{part_of, best_of, IsUnderWay, HasGrown};

use crate::search_state::Search;
use map_base::{LineId, NoMemory, SegId, Sequence};
use std::alloc::Global;

/// Takes the placed lines as the incumbent, if they cost less than it. No line is left on the part, so that its bound is
/// what they cost.
pub(crate) fn compare(alloc: Global, search: &mut Search, cost: u64) -> Result<(), NoMemory>
    requires under_way { IsUnderWay search.old }
    requires cost { cost ≡ (part_of search.old.bounds).bound search.old.bounds.placed }
    requires complete { first_open search.old.bounds.segs search.old.bounds.part search.old.bounds.placed ≡ None }
    ensures best { OnOk result (HasGrown search.old search.new (better (part_of search.old.bounds) search.old.bounds.placed (best_of search.old)) 0) }
    ensures spent { search.new.spent ≡ search.old.spent }
{
    if cost < search.cost {
        search.lists = placed_lists(alloc, search)?;
        search.cost = cost;
    }
    Ok(())
}

/// The placed lines of each segment of the part.
fn placed_lists(alloc: Global, search: &Search) -> Result<Vec<Sequence<LineId>>, NoMemory>
    requires { IsUnderWay search.now }
    ensures { IfOk result (λ lists. lists.items ≡ map (λ s. lines_on search.now.bounds.placed s) search.now.bounds.part) }
{
    let mut lists = Vec::with_capacity(alloc, search.part.len())?;
    for s in search.part {
        let lines = search.bounds.placed(*s).to_vec(alloc)?;
        lists.push(Sequence::of(lines))?;
    }
    Ok(lists)
}
