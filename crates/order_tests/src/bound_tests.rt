//! The bound, the canonical prices and the value of prices of one prefix.

ghost use Rattle.std.specs.Prelude.{IfOk};
ghost use Rattle.order_model.specs.Prefixes.{IsPrefixOf};

use crate::known;
use crate::known::Small;
use crate::problems::problem_of;
use crate::searching::only_part;
use map_base::{LineId, SegId};
use order_model::{Prefix, Problem};
use order_values::Prices;
use prefix_bounds::{bound_of, prices_for, value};
use std::alloc::Global;
use std::test::Fail;

/// Places a line of a segment next, if it is one that is left.
#[tactic(auto, using(crate::proofs::Placing::left_on))]
fn place(problem: &Problem, prefix: &mut Prefix, seg: SegId, line: LineId)
    requires { IsPrefixOf problem.now.segs prefix.old }
    ensures { IsPrefixOf problem.now.segs prefix.new }
{
    if seg.0 as usize >= problem.segs().len() {
        return;
    }
    if prefix.is_left(problem, seg, line) {
        prefix.place(problem, seg, line);
    }
}

/// The prefix on which these lines are chosen in turn.
fn chosen_in(alloc: Global, problem: &Problem, chosen: &[(u32, u32)]) -> Result<Prefix, Fail>
    ensures { IfOk result (IsPrefixOf problem.now.segs) }
{
    let mut prefix = Prefix::none(alloc, problem)?;
    for (seg, line) in chosen {
        place(problem, &mut prefix, SegId(*seg), LineId(*line));
    }
    Ok(prefix)
}

/// Whether a prefix has this bound on the problem's one part, and these canonical prices, of this value.
fn is_bounded(
    alloc: Global,
    problem: &Problem,
    prefix: &Prefix,
    bound: u32,
    listed: &[(u32, i64)],
) -> Result<bool, Fail>
    requires { IsPrefixOf problem.now.segs prefix.now }
{
    let part = only_part(alloc, problem)?;
    if bound_of(alloc, problem, part.as_slice(), prefix)? != u64::from(bound) {
        return Ok(false);
    }
    let prices = prices_for(alloc, problem, part.as_slice(), prefix)?;
    if value(problem, part.as_slice(), prefix, &prices) != Some(i64::from(bound)) {
        return Ok(false);
    }
    Ok(prices.as_slice() == listed)
}

/// Whether the prefix of a small problem on which these lines are chosen in turn has this bound on the problem's one
/// part, and these canonical prices, of this value.
fn has_bound(
    alloc: Global,
    small: Small,
    chosen: &[(u32, u32)],
    bound: u32,
    listed: &[(u32, i64)],
) -> Result<bool, Fail> {
    let problem = problem_of(alloc, small.lines, small.terms)?;
    let prefix = chosen_in(alloc, &problem, chosen)?;
    is_bounded(alloc, &problem, &prefix, bound, listed)
}

#[test]
fn prices_reach_the_bound_of_three_connections(rt: HostRuntime) -> Result<(), Fail> {
    let alloc = rt.alloc();
    let small = known::CONNECTIONS;
    assert!(rt; has_bound(alloc, small, [].as_slice(), 9, [].as_slice())?);
    assert!(rt; has_bound(alloc, small, [(0, 0)].as_slice(), 21, [(8, -12)].as_slice())?);
    assert!(rt; has_bound(alloc, small, [(0, 1)].as_slice(), 21, [(8, 12)].as_slice())?);
    let best = [(0, 0), (1, 0), (2, 1)];
    assert!(rt; has_bound(alloc, small, best.as_slice(), 21, [].as_slice())?);
    Ok(())
}

#[test]
fn prices_reach_the_bound_where_two_lines_cross(rt: HostRuntime) -> Result<(), Fail> {
    let alloc = rt.alloc();
    let small = known::CROSSING;
    assert!(rt; has_bound(alloc, small, [].as_slice(), 1, [(1, 1)].as_slice())?);
    assert!(rt; has_bound(alloc, small, [(1, 1)].as_slice(), 5, [].as_slice())?);
    Ok(())
}

/// What a price on one term shows of a problem's one part.
fn value_at(
    alloc: Global,
    problem: &Problem,
    prefix: &Prefix,
    term: u32,
    price: i64,
) -> Result<Option<i64>, Fail>
    requires { IsPrefixOf problem.now.segs prefix.now }
{
    let part = only_part(alloc, problem)?;
    let prices = Prices::of(vec![in alloc; (term, price)]?);
    Ok(value(problem, part.as_slice(), prefix, &prices))
}

/// What a price on one term shows of the problem whose lines cross, once these lines are placed.
fn value_of(
    alloc: Global,
    chosen: &[(u32, u32)],
    term: u32,
    price: i64,
) -> Result<Option<i64>, Fail> {
    let problem = problem_of(alloc, known::CROSSING.lines, known::CROSSING.terms)?;
    let prefix = chosen_in(alloc, &problem, chosen)?;
    value_at(alloc, &problem, &prefix, term, price)
}

#[test]
fn prices_that_are_not_allowed_have_no_value(rt: HostRuntime) -> Result<(), Fail> {
    let alloc = rt.alloc();
    assert_eq!(rt; value_of(alloc, [].as_slice(), 1, 1)?, Some(1));
    assert_eq!(rt; value_of(alloc, [].as_slice(), 1, -1)?, Some(-1));
    assert_eq!(rt; value_of(alloc, [].as_slice(), 1, 2)?, None);
    assert_eq!(rt; value_of(alloc, [].as_slice(), 1, -2)?, None);
    assert_eq!(rt; value_of(alloc, [].as_slice(), 0, 1)?, None);
    assert_eq!(rt; value_of(alloc, [].as_slice(), 4_294_967_295, 1)?, None);
    assert_eq!(rt; value_of(alloc, [(1, 0)].as_slice(), 1, 1)?, None);
    Ok(())
}
