//! The subgradient ascent at a node.

ghost use Rattle.std.specs.Prelude.{◌≡◌, ◌<◌, ◌≤◌, length, Some, IfOk};
ghost use Rattle.dual_bound.specs.Accepting.{shows};
ghost use Rattle.dual_ascent.specs.DualSteps.{AreWithin};
ghost use Rattle.dual_ascent.specs.Averages.{averages_after};
ghost use Rattle.dual_ascent.specs.Rounds.{is_shown, with_value, first_ascent, shrunk};
ghost use Rattle.dual_rounds.specs.Ranges.{averages_of};
ghost use Rattle.kept_trees.specs.declared.under_way.Progress.{Progress};
ghost use Rattle.kept_trees.specs.Searching.{search_of, ascent_of, bound_of, IsSearch, IsUnderWay, IsAscent, IsOverWhere};
ghost use Rattle.dual_orders.specs.Values.{incumbent_of};

use crate::under_way::{Progress, Search};
use dual_ascent::PairAverage;
use dual_rounds::{LineOrder, average_in, bar_of, no_averages};
use map_base::NoMemory;
use std::alloc::Global;

/// What is known at a node between rounds.
#[derive(Drop)]
pub(crate) struct Ascent {
    /// How many rounds were made.
    pub(crate) round: u32,
    /// The price of each term, in thousandths.
    pub(crate) prices: Vec<i64>,
    /// In which direction each goes.
    pub(crate) directions: Vec<i64>,
    /// How the lines of each segment stood on the average.
    pub(crate) averages: Vec<Vec<PairAverage>>,
    /// The step, in thousandths.
    pub(crate) step: u32,
    /// The rounds since the value rose or the step shrank.
    pub(crate) stale: u32,
    /// The greatest value so far, in thousandths.
    pub(crate) value: i64,
    /// The prices that have it.
    pub(crate) kept: Vec<i64>,
}

/// The greatest value of a node's rounds, and the prices that have it.
#[derive(Drop)]
pub(crate) struct LowerBound {
    pub(crate) value: i64,
    pub(crate) prices: Vec<i64>,
}

impl Ascent {
    /// What is left of the rounds.
    pub(crate) fn into_bound(self) -> LowerBound
        ensures { bound_of result ≡ record { value = self.value; prices = self.kept.items } }
    {
        LowerBound {
            value: self.value,
            prices: self.kept,
        }
    }
}

/// Before the first round, from these prices.
pub(crate) fn first_ascent(
    alloc: Global,
    search: &Search,
    prices: &[i64],
) -> Result<Ascent, NoMemory>
    requires search { IsSearch search.now }
    requires prices { AreWithin search.now.part.problem.now.terms prices.now }
    ensures first { IfOk result (λ a. (now : Progress) → ascent_of now a ≡ first_ascent (search_of search.now) prices.now (incumbent_of now.incumbent) now.branches) }
    ensures ascent { IfOk result (λ a. IsAscent search.now.part.problem.now a) }
    ensures round { IfOk result (λ a. a.round ≡ 0) }
    ensures stale { IfOk result (λ a. a.stale ≡ 0) }
{
    let problem = search.part.problem;
    let segs = problem.segs();
    let directions = vec![in alloc; 0_i64; problem.terms().len()]?;
    Ok(Ascent {
        round: 0,
        prices: Vec::from_slice(alloc, prices)?,
        directions,
        averages: no_averages(alloc, segs)?,
        step: 1000,
        stale: 0,
        value: 0,
        kept: Vec::from_slice(alloc, prices)?,
    })
}

/// Whether a value shows that no orders cost less than the target.
pub(crate) fn shows(target: u64, value: i64) -> bool
    requires { target ≤ 1024000000000 }
    ensures { result ≡ shows target (Some value) }
{
    bar_of(target) <= value
}

/// Whether the greatest value shows that no orders cost less than the incumbent.
pub(crate) fn is_shown(search: &Search, now: &Progress, ascent: &Ascent) -> bool
    requires search { IsSearch search.now }
    requires now { IsUnderWay search.now now.now }
    ensures { result ≡ is_shown (ascent_of now.now ascent.now) }
{
    shows(now.incumbent.cost, ascent.value)
}

/// The averages take the orders that answer the prices, and a value that is greater than in all rounds before is kept with
/// its prices.
pub(crate) fn look(search: &Search, orders: &[LineOrder], value: i64, ascent: &mut Ascent)
    requires search { IsSearch search.now }
    requires ascent { IsAscent search.now.part.problem.now ascent.old }
    requires round { 0 < ascent.old.round }
    requires stale { ascent.old.stale < 20 }
    requires orders { length orders.now ≡ length search.now.part.problem.now.segs }
    ensures looked { (now : Progress) → ascent_of now ascent.new ≡ with_value value (record (ascent_of now ascent.old) {
      averages = averages_after search.now.part.problem.now ascent.old.round orders.now (averages_of ascent.old.averages.items);
    }) }
    ensures round { ascent.new.round ≡ ascent.old.round }
    ensures ascent { IsAscent search.now.part.problem.now ascent.new }
{
    average_in(
        search.part.problem,
        ascent.round,
        orders,
        ascent.averages.as_mut_slice(),
    );
    keep_value(search, value, ascent);
}

/// A value that is greater than in all rounds before is kept with its prices.
fn keep_value(search: &Search, value: i64, ascent: &mut Ascent)
    requires ascent { IsAscent search.now.part.problem.now ascent.old }
    requires stale { ascent.old.stale < 20 }
    ensures kept { (now : Progress) → ascent_of now ascent.new ≡ with_value value (ascent_of now ascent.old) }
    ensures round { ascent.new.round ≡ ascent.old.round }
    ensures ascent { IsAscent search.now.part.problem.now ascent.new }
{
    if ascent.round == 1 || ascent.value < value {
        ascent.value = value;
        ascent
            .kept
            .as_mut_slice()
            .copy_from_slice(ascent.prices.as_slice());
        ascent.stale = 0;
    } else {
        ascent.stale += 1;
    }
}

/// After twenty rounds without a greater value the step shrinks. Whether it is too small then.
pub(crate) fn shrink(search: &Search, ascent: &mut Ascent) -> bool
    requires ascent { IsAscent search.now.part.problem.now ascent.old }
    ensures over { (now : Progress) → IsOverWhere result (ascent_of now ascent.new) (shrunk (ascent_of now ascent.old)) }
    ensures round { ascent.new.round ≡ ascent.old.round }
    ensures directions { ascent.new.directions.items ≡ ascent.old.directions.items }
    ensures ascent { IsAscent search.now.part.problem.now ascent.new }
    ensures stale { ascent.new.stale < 20 }
{
    if ascent.stale < 20 {
        return false;
    }
    ascent.step = 7 * ascent.step / 10;
    ascent.stale = 0;
    ascent.step < 4
}
