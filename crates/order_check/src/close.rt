//! Whether a Close holds for a prefix.

ghost use Rattle.std.specs.Prelude.{◌≡◌, ◌≤◌, ◌+ℤ◌, ◌-ℤ◌, ◌≤ℤ◌, ◌^◌, int_le, pos};
ghost use Rattle.order_model.specs.Prefixes.{IsPrefixOf};
ghost use Rattle.order_bound.specs.Accepting.{is_closed};
ghost use Rattle.order_check.specs.Asking.{question_of, IsAsked, HasTable};
ghost use Rattle.order_check.specs.Counting.{IsTally};

use crate::asked::Asked;
use crate::slot::{SlotCost, Sums};
use crate::term_prices::{are_allowed, spread};
use order_model::Prefix;
use order_values::Prices;

/// Whether a Close holds: its prices are allowed, and their value is at least the target. The tally is that of the prefix,
/// and is left as it was.
#[inline(never)]
pub(crate) fn is_closed(
    asked: &Asked,
    prefix: &Prefix,
    sums: Sums,
    costs: &mut [SlotCost],
    prices: &Prices,
) -> bool
    requires asked { IsAsked asked.now }
    requires fits { IsPrefixOf asked.now.problem.now.segs prefix.now }
    requires table { HasTable asked.now costs.old }
    requires tally { IsTally asked.now prefix.now.placed sums costs.old }
    ensures closed { result ≡ is_closed (question_of asked.now) prefix.now.placed prices.now }
    ensures tally { IsTally asked.now prefix.now.placed sums costs.new }
{
    let terms = asked.table.terms.as_slice();
    let list = prices.as_slice();
    if !are_allowed(asked.problem, prefix, asked.terms, terms, list) {
        return false;
    }
    let least = spread(asked.terms, terms, list, costs, sums.least, false);
    let _same = spread(asked.terms, terms, list, costs, least, true);
    reaches(asked.target, sums.decided, least)
}

/// Whether the decided terms and the slots together cost at least the target.
fn reaches(target: u64, decided: u64, least: i128) -> bool
    requires low { (pos 0 -ℤ pos (2 ^ 100)) ≤ℤ least }
    requires high { least ≤ℤ pos (2 ^ 100) }
    ensures { result ≡ int_le (pos target) (pos decided +ℤ least) }
{
    i128::from(target) <= i128::from(decided) + least
}
