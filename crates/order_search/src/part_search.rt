//! The search over a part.

ghost use Rattle.std.specs.Prelude.{◌≡◌, ◌+◌, ◌<◌, ◌≤◌, ◌^◌, nat_lt, length, map, sum_by, All, IfOk, IfErr};
ghost use Rattle.map_base.specs.declared.ids.SegId.{SegId};
ghost use Rattle.order_model.specs.Problems.{lines_on, IsTerm, IsProblem};
ghost use Rattle.order_model.specs.Costs.{term_cost};
ghost use Rattle.order_model.specs.Parts.{IsRisingPart};
ghost use Rattle.order_model.specs.PartTerms.{part_terms, part_numbers};
ghost use Rattle.order_proof.specs.Plain.{plain};
ghost use Rattle.order_search.specs.LiveTrees.{live_tree};
ghost use Rattle.order_search.specs.Finding.{best_found, places_of, incomplete_in, IsSearchFault, IsNotSpent};
ghost use Rattle.order_search.specs.FoundParts.{part_in, branches_in, cost_of_number, IsFoundIn};
ghost use Rattle.order_search.specs.Pricing.{with_prices, IsOver};
ghost use Rattle.order_search.specs.Searching.{part_of, best_of, IsUnderWay, IsBegun, IsStop};

use crate::found::{Found, SearchFault};
use crate::grow::grow;
use crate::part_numbers::numbers_of_part;
use crate::search_state::Search;
use crate::tree_prices::priced;
use map_base::{Limit, LimitKind, LineId, NoMemory, SegId, Sequence, Steps};
use order_model::{Problem, Term, ends_of, is_met_on, weight_of};
use order_proof::Tree;
use order_values::Orders;
use part_bounds::PartBounds;
use std::alloc::Global;
use std::sync::ledger::Ledger;

/// Orders of a part that cost least, and the live tree that shows it. The part is one of the problem's: its segments
/// rise. A prefix is split where it is not complete and its bound is below the best so far, which is the least cost of
/// the number order and of all complete prefixes before, at the first segment of the part with a line that is left; its
/// children stand by bound, then by line. All other prefixes are closed with their canonical prices. The orders are the
/// number order where it costs least, else the first complete prefix that does. The limit is answered exactly where the
/// part has more than 2,048 places, which are its lines minus 1 summed over its segments; `Spent` exactly where it has no
/// more, and the tree has more branch nodes than the budget. Each branch node takes one step of the counter.
pub fn search<L: Ledger>(
    alloc: Global,
    problem: &Problem,
    part: &[SegId],
    budget: u32,
    steps: &mut Steps<L>,
) -> Result<Found, SearchFault>
    requires known { All (λ (s : SegId). s.0 < length problem.now.segs) part.now }
    requires rising { IsRisingPart part.now }
    requires budget { budget + 1 < 2 ^ 32 }
    ensures found { IfOk result (IsFoundIn problem.now part.now) }
    ensures within { IfOk result (λ f. f.branches ≤ budget) }
    ensures steps { IfOk result (λ f. steps.new ≡ steps.old + f.branches) }
    ensures fault { IfErr result (IsSearchFault (places_of problem.now.segs part.now) (branches_in problem.now part.now) budget) }
    ensures few_steps { IfErr result (λ _. steps.new ≤ steps.old + branches_in problem.now part.now) }
    ensures suffices { incomplete_in problem.now.segs part.now ≤ budget → IfErr result IsNotSpent }
{
    if is_deep(problem, part) {
        return Err(SearchFault::TooDeep(Limit::above(LimitKind::Places)));
    }
    let numbers = numbers_of_part(alloc, problem, part)?;
    live_search(alloc, problem, part, numbers.as_slice(), budget, steps)
}

/// The search for the live tree of a part that has no more places than are allowed.
fn live_search<L: Ledger>(
    alloc: Global,
    problem: &Problem,
    part: &[SegId],
    numbers: &[u32],
    budget: u32,
    steps: &mut Steps<L>,
) -> Result<Found, SearchFault>
    requires problem { IsProblem problem.now }
    requires known { All (λ (s : SegId). s.0 < length problem.now.segs) part.now }
    requires rising { IsRisingPart part.now }
    requires numbers { numbers.now ≡ part_numbers problem.now.terms part.now }
    requires budget { budget + 1 < 2 ^ 32 }
    ensures tree { IfOk result (λ f. plain f.tree ≡ (live_tree (part_in problem.now part.now)).tree) }
    ensures best { IfOk result (λ f. best_found f ≡ (live_tree (part_in problem.now part.now)).best) }
    ensures branches { IfOk result (λ f. f.branches ≡ branches_in problem.now part.now) }
    ensures within { IfOk result (λ f. f.branches ≤ budget) }
    ensures steps { IfOk result (λ f. steps.new ≡ steps.old + f.branches) }
    ensures stop { IfErr result (IsStop budget (branches_in problem.now part.now)) }
    ensures few_steps { IfErr result (λ _. steps.new ≤ steps.old + branches_in problem.now part.now) }
{
    let mut search = begin(alloc, problem, part, numbers, budget)?;
    let bound = search.root_bound;
    let tree = grow(alloc, &mut search, 0, bound, steps)?;
    Ok(found(alloc, search, &tree)?)
}

/// A search in which nothing is placed, and the number order is the best so far.
fn begin<'a>(
    alloc: Global,
    problem: &'a Problem,
    part: &'a [SegId],
    numbers: &'a [u32],
    budget: u32,
) -> Result<Search<'a>, NoMemory>
    requires problem { IsProblem problem.now }
    requires known { All (λ (s : SegId). s.0 < length problem.now.segs) part.now }
    requires rising { IsRisingPart part.now }
    requires numbers { numbers.now ≡ part_numbers problem.now.terms part.now }
    requires budget { budget + 1 < 2 ^ 32 }
    ensures { IfOk result (IsBegun problem.now.segs part.now (part_terms problem.now.terms part.now) budget) }
{
    let mut bounds = PartBounds::new(alloc, problem, part, numbers)?;
    let root_bound = bounds.bound();
    let cost = number_cost(problem, numbers);
    let lists = number_lists(alloc, problem, part)?;
    let children = Vec::new(alloc);
    Ok(Search {
        problem,
        part,
        bounds,
        root_bound,
        children,
        cost,
        lists,
        spent: 0,
        budget,
    })
}

/// What the terms of these numbers cost under the number order.
fn number_cost(problem: &Problem, numbers: &[u32]) -> u64
    requires known { All (λ n. n < length problem.now.terms) numbers.now }
    requires few { length numbers.now ≤ 4000000 }
    ensures { result ≡ sum_by (cost_of_number problem.now) numbers.now }
{
    let terms = problem.terms();
    let mut total: u64 = 0;
    for n in numbers {
        total += number_cost_of(problem, terms[*n as usize]);
    }
    total
}

/// What a term costs under the number order.
fn number_cost_of(problem: &Problem, term: Term) -> u64
    requires { IsTerm problem.now.segs term }
    ensures value { result ≡ term_cost problem.now.segs term }
    ensures most { result ≤ 256000 }
{
    let segs = problem.segs();
    let (seg, other) = ends_of(term);
    let here = segs[seg.0 as usize].as_slice();
    let there = segs[other.0 as usize].as_slice();
    if is_met_on(here, there, term) {
        u64::from(weight_of(term))
    } else {
        0
    }
}

/// The lines of each segment of the part, by number.
fn number_lists(
    alloc: Global,
    problem: &Problem,
    part: &[SegId],
) -> Result<Vec<Sequence<LineId>>, NoMemory>
    requires { All (λ (s : SegId). s.0 < length problem.now.segs) part.now }
    ensures { IfOk result (λ lists. lists.items ≡ map (λ s. lines_on problem.now.segs s) part.now) }
{
    let segs = problem.segs();
    let mut lists = Vec::with_capacity(alloc, part.len())?;
    for s in part {
        let lines = segs[s.0 as usize].as_slice().to_vec(alloc)?;
        lists.push(Sequence::of(lines))?;
    }
    Ok(lists)
}

/// What a search has found, with the prices of its tree.
fn found(alloc: Global, search: Search, tree: &Tree) -> Result<Found, NoMemory>
    requires under_way { IsUnderWay search }
    requires over { IsOver search.bounds.segs search.bounds.placed (plain tree.now) }
    ensures tree { IfOk result (λ f. plain f.tree ≡ with_prices (part_of search.entry.bounds) search.entry.bounds.placed (plain tree.now)) }
    ensures best { IfOk result (λ f. best_found f ≡ best_of search.entry) }
    ensures branches { IfOk result (λ f. f.branches ≡ search.entry.spent) }
{
    let mut bounds = search.bounds;
    let tree = priced(alloc, &mut bounds, tree)?;
    Ok(Found {
        orders: Orders {
            lists: Sequence::of(search.lists),
        },
        target: search.cost,
        branches: search.spent,
        tree,
    })
}

/// Whether the part has more places than are allowed.
fn is_deep(problem: &Problem, part: &[SegId]) -> bool
    requires { All (λ (s : SegId). s.0 < length problem.now.segs) part.now }
    ensures deep { result ≡ nat_lt 2048 (places_of problem.now.segs part.now) }
    ensures fits { IsProblem problem.now }
{
    let segs = problem.segs();
    let mut left: usize = 2048;
    for s in part {
        let places = segs[s.0 as usize].as_slice().len().saturating_sub(1);
        if places > left {
            return true;
        }
        left -= places;
    }
    false
}
