//! The tree of a prefix, grown depth first.

ghost use Rattle.std.specs.Prelude.{◌≡◌, ◌+◌, ◌<◌, ◌≤◌, [], length, map, drop, false, Contains, IfOk, IfErr, OnOk};
ghost use Rattle.order_model.specs.Problems.{lines_on};
ghost use Rattle.order_model.specs.Completions.{placed_more};
ghost use Rattle.order_model.specs.Prefixes.{is_placed};
ghost use Rattle.order_proof.specs.Plain.{plain, close, cases_of};
ghost use Rattle.order_proof.specs.Trees.{splits_of, splits_of_cases};
ghost use Rattle.order_search.specs.Left.{AreNext};
ghost use Rattle.order_search.specs.Children.{lines_in};
ghost use Rattle.order_search.specs.Searching.{part_of, due, due_case, due_cases, seg_at, AreBounded, IsUnderWay, AreShut, IsOpenAt, HasGrown, IsStop};

use crate::best::compare;
use crate::child::Child;
use crate::children::push_children;
use crate::found::SearchFault;
use crate::search_state::{Search, next_open};
use map_base::{LineId, Steps};
use order_proof::Tree;
use order_values::Prices;
use std::alloc::Global;
use std::sync::ledger::Ledger;

/// The tree of a prefix with this bound, yet without prices, where no line is left on the first `at` segments of the part.
/// Each branch node takes one step of the counter.
#[cycle(grow)]
pub(crate) fn grow<L: Ledger>(
    alloc: Global,
    search: &mut Search,
    at: usize,
    bound: u64,
    steps: &mut Steps<L>,
) -> Result<Tree, SearchFault>
    requires under_way { IsUnderWay search.old }
    requires shut { AreShut at search.old }
    requires bound { bound ≡ (part_of search.old.bounds).bound search.old.bounds.placed }
    ensures steps { steps.new + search.old.spent ≡ steps.old + search.new.spent }
    ensures most { search.new.spent ≤ search.old.spent + splits_of (due search.old).tree }
    ensures tree { IfOk result (λ t. plain t ≡ (due search.old).tree) }
    ensures grown { OnOk result (HasGrown search.old search.new (due search.old).best (splits_of (due search.old).tree)) }
    ensures stop { IfErr result (IsStop search.old.budget (search.old.spent + splits_of (due search.old).tree)) }
{
    match next_open(search, at) {
        None => {
            compare(alloc, search, bound)?;
            Ok(closed(alloc))
        }
        Some(at) => grow_open(alloc, search, at, bound, steps),
    }
}

/// A Close without prices.
fn closed(alloc: Global) -> Tree
    ensures { plain result ≡ close [] }
{
    Tree::Close {
        prices: Prices::of(Vec::new(alloc)),
    }
}

/// The tree of a prefix with this bound where a line is left on this segment of the part, and none on those before it.
#[cycle(grow)]
fn grow_open<L: Ledger>(
    alloc: Global,
    search: &mut Search,
    at: usize,
    bound: u64,
    steps: &mut Steps<L>,
) -> Result<Tree, SearchFault>
    requires under_way { IsUnderWay search.old }
    requires first { IsOpenAt at search.old }
    requires bound { bound ≡ (part_of search.old.bounds).bound search.old.bounds.placed }
    ensures steps { steps.new + search.old.spent ≡ steps.old + search.new.spent }
    ensures most { search.new.spent ≤ search.old.spent + splits_of (due search.old).tree }
    ensures tree { IfOk result (λ t. plain t ≡ (due search.old).tree) }
    ensures grown { OnOk result (HasGrown search.old search.new (due search.old).best (splits_of (due search.old).tree)) }
    ensures stop { IfErr result (IsStop search.old.budget (search.old.spent + splits_of (due search.old).tree)) }
{
    if bound < search.cost {
        grow_split(alloc, search, at, steps)
    } else {
        Ok(closed(alloc))
    }
}

/// The tree of a prefix that is split.
#[cycle(grow)]
fn grow_split<L: Ledger>(
    alloc: Global,
    search: &mut Search,
    at: usize,
    steps: &mut Steps<L>,
) -> Result<Tree, SearchFault>
    requires under_way { IsUnderWay search.old }
    requires first { IsOpenAt at search.old }
    requires below { (part_of search.old.bounds).bound search.old.bounds.placed < search.old.cost }
    ensures steps { steps.new + search.old.spent ≡ steps.old + search.new.spent }
    ensures most { search.new.spent ≤ search.old.spent + splits_of (due search.old).tree }
    ensures tree { IfOk result (λ t. plain t ≡ (due search.old).tree) }
    ensures grown { OnOk result (HasGrown search.old search.new (due search.old).best (splits_of (due search.old).tree)) }
    ensures stop { IfErr result (IsStop search.old.budget (search.old.spent + splits_of (due search.old).tree)) }
{
    if search.spent == search.budget {
        return Err(SearchFault::Spent {
            branches: search.budget + 1,
        });
    }
    search.spent += 1;
    steps.tick();
    let seg = search.part[at];
    let start = search.children.len();
    push_children(search, seg)?;
    let children = grow_cases(alloc, search, at, start, steps)?;
    search.children.truncate(start);
    Ok(Tree::Split { seg, children })
}

/// The cases of a split: the tree of each child from `start` on, placed next on the segment.
#[cycle(grow)]
fn grow_cases<L: Ledger>(
    alloc: Global,
    search: &mut Search,
    at: usize,
    start: usize,
    steps: &mut Steps<L>,
) -> Result<Vec<(LineId, Tree)>, SearchFault>
    requires under_way { IsUnderWay search.old }
    requires first { IsOpenAt at search.old }
    requires start { start ≤ length search.old.children.items }
    requires next { AreNext search.old.bounds.segs search.old.bounds.placed (seg_at at search.old) (lines_in (drop start search.old.children.items)) }
    requires bounded { AreBounded search.old.bounds (seg_at at search.old) (drop start search.old.children.items) }
    ensures steps { steps.new + search.old.spent ≡ steps.old + search.new.spent }
    ensures most { search.new.spent ≤ search.old.spent + splits_of_cases (cases_of (due_cases at start search.old).cases) }
    ensures cases { IfOk result (λ v. map (λ c. (c.0, plain c.1)) v.items ≡ (due_cases at start search.old).cases) }
    ensures grown { OnOk result (HasGrown search.old search.new (due_cases at start search.old).best (splits_of_cases (cases_of (due_cases at start search.old).cases))) }
    ensures stop { IfErr result (IsStop search.old.budget (search.old.spent + splits_of_cases (cases_of (due_cases at start search.old).cases))) }
{
    let count = search.children.len() - start;
    let mut cases = Vec::with_capacity(alloc, count)?;
    for k in 0..count {
        let child = search.children[start + k];
        let tree = grow_case(alloc, search, at, child, steps)?;
        cases.push((child.line, tree))?;
    }
    Ok(cases)
}

/// The tree of a case, whose line is placed while it grows. Where its bound is not below the incumbent it is closed,
/// whether it is complete or not, and its line need not be placed.
#[cycle(grow)]
fn grow_case<L: Ledger>(
    alloc: Global,
    search: &mut Search,
    at: usize,
    child: Child,
    steps: &mut Steps<L>,
) -> Result<Tree, SearchFault>
    requires under_way { IsUnderWay search.old }
    requires first { IsOpenAt at search.old }
    requires line { Contains (lines_on search.old.bounds.segs (seg_at at search.old)) child.line }
    requires unplaced { is_placed (lines_on search.old.bounds.placed (seg_at at search.old)) child.line ≡ false }
    requires bound { child.bound ≡ (part_of search.old.bounds).bound (placed_more search.old.bounds.segs search.old.bounds.placed (seg_at at search.old) child.line) }
    ensures steps { steps.new + search.old.spent ≡ steps.old + search.new.spent }
    ensures most { search.new.spent ≤ search.old.spent + splits_of (due_case at child.line search.old).tree }
    ensures tree { IfOk result (λ t. plain t ≡ (due_case at child.line search.old).tree) }
    ensures grown { OnOk result (HasGrown search.old search.new (due_case at child.line search.old).best (splits_of (due_case at child.line search.old).tree)) }
    ensures stop { IfErr result (IsStop search.old.budget (search.old.spent + splits_of (due_case at child.line search.old).tree)) }
{
    if child.bound >= search.cost {
        return Ok(closed(alloc));
    }
    let seg = search.part[at];
    search.bounds.place(seg, child.line);
    let tree = grow(alloc, search, at, child.bound, steps)?;
    search.bounds.take_back(seg);
    Ok(tree)
}
