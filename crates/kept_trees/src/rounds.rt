//! The rounds of a node.

ghost use Rattle.std.specs.Prelude.{◌≡◌, ◌+◌, ◌<◌, ◌≤◌, All, IsTrue, IsFalse, unsigned_abs};
ghost use Rattle.dual_ascent.specs.LocalSearch.{after_offer};
ghost use Rattle.dual_ascent.specs.Averages.{averaged_orders};
ghost use Rattle.dual_ascent.specs.DualSteps.{answers, value_with, square_sum};
ghost use Rattle.dual_ascent.specs.Rounds.{going, over, spent, directed, rounded, stepped, one_round, rounds, closed};
ghost use Rattle.dual_rounds.specs.Ranges.{averages_of};
ghost use Rattle.order_model.specs.Costs.{AreOrders};
ghost use Rattle.dual_orders.specs.Answered.{AreAnswers};
ghost use Rattle.dual_orders.specs.SettledPairs.{pairs_of, IsPairOn};
ghost use Rattle.dual_orders.specs.Values.{incumbent_of};
ghost use Rattle.kept_trees.specs.Searching.{search_of, ascent_of, progress_of, IsSearch, IsUnderWay, IsAscent, IsOverWhere, StageIs, IsGoing, moved};

use crate::ascent::{Ascent, is_shown, look, shrink};
use crate::under_way::{Progress, Search};
use dual_bound::SettledPair;
use dual_orders::{Answers, offer, put_averaged, value_of};
use dual_rounds::{LineOrder, copy_orders, direct, gap_of, square_sum, step_prices};
use map_base::Steps;
use std::sync::ledger::Ledger;

/// Whether rounds go on, are over, or can't go on within the budget.
#[derive(Clone, Copy)]
pub(crate) enum Stage {
    Going,
    Over,
    Spent,
}

/// At most so many rounds; then, unless they can't go on within the budget, the averaged orders are offered. Whether they
/// could go on.
pub(crate) fn ascend<L: Ledger>(
    search: &Search,
    now: &mut Progress,
    settled: &[SettledPair],
    most: u32,
    ascent: &mut Ascent,
    held: &mut Answers,
    steps: &mut Steps<L>,
) -> bool
    requires search { IsSearch search.now }
    requires now { IsUnderWay search.now now.old }
    requires settled { All (IsPairOn search.now.part.problem.now.segs) settled.now }
    requires ascent { IsAscent search.now.part.problem.now ascent.old }
    requires answers { AreAnswers search.now.part.problem.now (pairs_of settled.now) held.old }
    requires stale { ascent.old.stale < 20 }
    requires round { ascent.old.round ≡ 0 }
    requires most { most ≤ 1000 }
    ensures answers { AreAnswers search.now.part.problem.now (pairs_of settled.now) held.new }
    ensures now { IsUnderWay search.now now.new }
    ensures ascent { IsAscent search.now.part.problem.now ascent.new }
    ensures over { IsTrue result → closed (search_of search.now) (pairs_of settled.now)
        (rounds (search_of search.now) (pairs_of settled.now) most (ascent_of now.old ascent.old)) ≡ over (ascent_of now.new ascent.new) }
    ensures spent { IsFalse result → closed (search_of search.now) (pairs_of settled.now)
        (rounds (search_of search.now) (pairs_of settled.now) most (ascent_of now.old ascent.old)) ≡ spent (ascent_of now.new ascent.new) }
    ensures steps { steps.new + now.old.branches ≡ steps.old + now.new.branches }
{
    match go_on(search, now, settled, most, ascent, held, steps) {
        Stage::Spent => false,
        Stage::Going | Stage::Over => {
            offer_averaged(search, now, settled, ascent);
            true
        }
    }
}

/// At most so many rounds. They are over then.
fn go_on<L: Ledger>(
    search: &Search,
    now: &mut Progress,
    settled: &[SettledPair],
    most: u32,
    ascent: &mut Ascent,
    held: &mut Answers,
    steps: &mut Steps<L>,
) -> Stage
    requires search { IsSearch search.now }
    requires now { IsUnderWay search.now now.old }
    requires settled { All (IsPairOn search.now.part.problem.now.segs) settled.now }
    requires ascent { IsAscent search.now.part.problem.now ascent.old }
    requires answers { AreAnswers search.now.part.problem.now (pairs_of settled.now) held.old }
    requires stale { ascent.old.stale < 20 }
    requires round { ascent.old.round ≡ 0 }
    requires most { most ≤ 1000 }
    ensures answers { AreAnswers search.now.part.problem.now (pairs_of settled.now) held.new }
    ensures now { IsUnderWay search.now now.new }
    ensures ascent { IsAscent search.now.part.problem.now ascent.new }
    ensures stage { StageIs result (ascent_of now.new ascent.new) (rounds (search_of search.now) (pairs_of settled.now) most (ascent_of now.old ascent.old)) }
    ensures steps { steps.new + now.old.branches ≡ steps.old + now.new.branches }
{
    for _ in 0..most {
        match one_round(search, now, settled, ascent, held, steps) {
            Stage::Going => {}
            Stage::Over => return Stage::Over,
            Stage::Spent => return Stage::Spent,
        }
    }
    Stage::Over
}

/// One round.
fn one_round<L: Ledger>(
    search: &Search,
    now: &mut Progress,
    settled: &[SettledPair],
    ascent: &mut Ascent,
    held: &mut Answers,
    steps: &mut Steps<L>,
) -> Stage
    requires search { IsSearch search.now }
    requires now { IsUnderWay search.now now.old }
    requires settled { All (IsPairOn search.now.part.problem.now.segs) settled.now }
    requires ascent { IsAscent search.now.part.problem.now ascent.old }
    requires answers { AreAnswers search.now.part.problem.now (pairs_of settled.now) held.old }
    requires stale { ascent.old.stale < 20 }
    requires round { ascent.old.round < 100000 }
    ensures answers { AreAnswers search.now.part.problem.now (pairs_of settled.now) held.new }
    ensures now { IsUnderWay search.now now.new }
    ensures ascent { IsAscent search.now.part.problem.now ascent.new }
    ensures stale { IsGoing result → ascent.new.stale < 20 }
    ensures round { ascent.new.round ≤ ascent.old.round + 1 }
    ensures stage { StageIs result (ascent_of now.new ascent.new) (one_round (search_of search.now) (pairs_of settled.now) (ascent_of now.old ascent.old)) }
    ensures steps { steps.new + now.old.branches ≡ steps.old + now.new.branches }
{
    if search.budget - now.branches < search.part.load {
        return Stage::Spent;
    }
    count_round(search, now, ascent, steps);
    let value = answer(search, now, settled, ascent, held);
    let orders = held.orders.as_slice();
    look(search, orders, value, ascent);
    if is_shown(search, now, ascent) {
        return Stage::Over;
    }
    if move_on(search, now, settled, orders, value, ascent) {
        return Stage::Over;
    }
    Stage::Going
}

/// A round counts as so many branch nodes as the part's load.
fn count_round<L: Ledger>(
    search: &Search,
    now: &mut Progress,
    ascent: &mut Ascent,
    steps: &mut Steps<L>,
)
    requires load { now.old.branches + search.now.part.load ≤ 100000 }
    requires round { ascent.old.round < 100000 }
    ensures ascent { ascent.new ≡ record ascent.old { round = ascent.old.round + 1 } }
    ensures now { now.new ≡ record now.old { branches = now.old.branches + search.now.part.load } }
    ensures steps { steps.new ≡ steps.old + search.now.part.load }
{
    ascent.round += 1;
    for _ in 0..search.part.load {
        steps.tick();
    }
    now.branches += search.part.load;
}

/// The prices are answered. The value of these answers.
fn answer(
    search: &Search,
    now: &mut Progress,
    settled: &[SettledPair],
    ascent: &Ascent,
    held: &mut Answers,
) -> i64
    requires search { IsSearch search.now }
    requires now { IsUnderWay search.now now.old }
    requires settled { All (IsPairOn search.now.part.problem.now.segs) settled.now }
    requires ascent { IsAscent search.now.part.problem.now ascent.now }
    requires answers { AreAnswers search.now.part.problem.now (pairs_of settled.now) held.old }
    ensures answers { AreAnswers search.now.part.problem.now (pairs_of settled.now) held.new }
    ensures now { IsUnderWay search.now now.new }
    ensures same { progress_of now.new ≡ progress_of now.old }
    ensures orders { held.new.orders.items ≡ answers search.now.part.problem.now (pairs_of settled.now) ascent.now.prices.items }
    ensures value { result ≡ value_with search.now.part.problem.now ascent.now.prices.items (answers search.now.part.problem.now (pairs_of settled.now) ascent.now.prices.items) }
    ensures most { unsigned_abs result ≤ 4000000000000000 }
{
    let prices = ascent.prices.as_slice();
    held.answer(&search.part, &mut now.solver, settled, prices);
    value_of(search.part.problem, prices, held.orders.as_slice())
}

/// What comes behind a value that doesn't show the incumbent's cost: directions, offers, the step, and the next prices. Whether
/// the rounds are over.
fn move_on(
    search: &Search,
    now: &mut Progress,
    settled: &[SettledPair],
    orders: &[LineOrder],
    value: i64,
    ascent: &mut Ascent,
) -> bool
    requires search { IsSearch search.now }
    requires now { IsUnderWay search.now now.old }
    requires settled { All (IsPairOn search.now.part.problem.now.segs) settled.now }
    requires orders { AreOrders search.now.part.problem.now.segs orders.now }
    requires value { unsigned_abs value ≤ 4000000000000000 }
    requires ascent { IsAscent search.now.part.problem.now ascent.old }
    ensures now { IsUnderWay search.now now.new }
    ensures ascent { IsAscent search.now.part.problem.now ascent.new }
    ensures stale { IsFalse result → ascent.new.stale < 20 }
    ensures round { ascent.new.round ≡ ascent.old.round }
    ensures branches { now.new.branches ≡ now.old.branches }
    ensures over { IsOverWhere result (ascent_of now.new ascent.new) (moved (search_of search.now) (pairs_of settled.now) orders.now value (ascent_of now.old ascent.old)) }
{
    if turn(search, now, orders, ascent) {
        return true;
    }
    if offer_in_turn(search, now, settled, ascent) {
        return true;
    }
    if shrink(search, ascent) {
        return true;
    }
    step_on(search, now, value, ascent);
    false
}

/// The directions follow the orders that answer the prices. Where all stand still, these orders are offered, and the rounds are
/// over.
fn turn(search: &Search, now: &mut Progress, orders: &[LineOrder], ascent: &mut Ascent) -> bool
    requires search { IsSearch search.now }
    requires now { IsUnderWay search.now now.old }
    requires orders { AreOrders search.now.part.problem.now.segs orders.now }
    requires ascent { IsAscent search.now.part.problem.now ascent.old }
    ensures now { IsUnderWay search.now now.new }
    ensures ascent { IsAscent search.now.part.problem.now ascent.new }
    ensures moves { IsFalse result → 0 < square_sum ascent.new.directions.items }
    ensures round { ascent.new.round ≡ ascent.old.round }
    ensures branches { now.new.branches ≡ now.old.branches }
    ensures over { IsOverWhere result (ascent_of now.new ascent.new) (directed (search_of search.now) orders.now (ascent_of now.old ascent.old)) }
{
    direct(
        search.part.problem,
        orders,
        ascent.prices.as_slice(),
        ascent.directions.as_mut_slice(),
    );
    if square_sum(ascent.directions.as_slice()) > 0 {
        return false;
    }
    copy_orders(orders, now.trial.as_mut_slice());
    offer_trial(search, now);
    true
}

/// Each twentieth round the averaged orders are offered. Whether the bound then shows the incumbent's cost.
fn offer_in_turn(
    search: &Search,
    now: &mut Progress,
    settled: &[SettledPair],
    ascent: &Ascent,
) -> bool
    requires search { IsSearch search.now }
    requires now { IsUnderWay search.now now.old }
    requires settled { All (IsPairOn search.now.part.problem.now.segs) settled.now }
    requires ascent { IsAscent search.now.part.problem.now ascent.now }
    ensures now { IsUnderWay search.now now.new }
    ensures branches { now.new.branches ≡ now.old.branches }
    ensures over { IsOverWhere result (ascent_of now.new ascent.now) (rounded (search_of search.now) (pairs_of settled.now) (ascent_of now.old ascent.now)) }
{
    if ascent.round % 20 != 0 {
        return false;
    }
    offer_averaged(search, now, settled, ascent);
    is_shown(search, now, ascent)
}

/// The prices take a step in their directions.
fn step_on(search: &Search, now: &Progress, value: i64, ascent: &mut Ascent)
    requires search { IsSearch search.now }
    requires now { IsUnderWay search.now now.now }
    requires value { unsigned_abs value ≤ 4000000000000000 }
    requires moves { 0 < square_sum ascent.old.directions.items }
    requires ascent { IsAscent search.now.part.problem.now ascent.old }
    ensures ascent { IsAscent search.now.part.problem.now ascent.new }
    ensures same { ascent.new.stale ≡ ascent.old.stale }
    ensures round { ascent.new.round ≡ ascent.old.round }
    ensures stepped { stepped (search_of search.now) value (ascent_of now.now ascent.old) ≡ going (ascent_of now.now ascent.new) }
{
    let gap = gap_of(now.incumbent.cost, value);
    let squares = square_sum(ascent.directions.as_slice());
    step_prices(
        search.part.problem,
        ascent.step,
        gap,
        squares,
        ascent.directions.as_slice(),
        ascent.prices.as_mut_slice(),
    );
}

/// The averaged orders are offered.
fn offer_averaged(search: &Search, now: &mut Progress, settled: &[SettledPair], ascent: &Ascent)
    requires search { IsSearch search.now }
    requires now { IsUnderWay search.now now.old }
    requires settled { All (IsPairOn search.now.part.problem.now.segs) settled.now }
    requires ascent { IsAscent search.now.part.problem.now ascent.now }
    ensures now { IsUnderWay search.now now.new }
    ensures branches { now.new.branches ≡ now.old.branches }
    ensures offered { incumbent_of now.new.incumbent ≡ after_offer search.now.part.problem.now
        (averaged_orders search.now.part.problem.now (pairs_of settled.now) (averages_of ascent.now.averages.items)) (incumbent_of now.old.incumbent) }
{
    put_averaged(
        &search.part,
        &mut now.solver,
        settled,
        ascent.averages.as_slice(),
        now.trial.as_mut_slice(),
    );
    offer_trial(search, now);
}

/// Orders that were put in place are offered.
pub(crate) fn offer_trial(search: &Search, now: &mut Progress)
    requires search { IsSearch search.now }
    requires now { IsUnderWay search.now now.old }
    ensures now { IsUnderWay search.now now.new }
    ensures branches { now.new.branches ≡ now.old.branches }
    ensures offered { incumbent_of now.new.incumbent ≡ after_offer search.now.part.problem.now now.old.trial.items (incumbent_of now.old.incumbent) }
{
    offer(
        &search.part,
        &mut now.solver,
        now.trial.as_mut_slice(),
        &mut now.incumbent,
    );
}
