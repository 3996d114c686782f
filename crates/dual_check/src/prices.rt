//! Prices on the terms of a part.

ghost use Rattle.std.specs.Prelude.{◌≡◌};
ghost use Rattle.std.specs.List.{list_any};
ghost use Rattle.order_values.specs.PriceLists.{price_at, AreRisingPrices};
ghost use Rattle.dual_bound.specs.Values.{allows, are_allowed};
ghost use Rattle.dual_check.specs.Asking.{IsAsked, question_of};
ghost use Rattle.dual_check.specs.Prices.{may_have};

use crate::asked::Asked;
use order_model::Term;

/// Whether each price is on a Link or an Apart of the part, at most 1000 times its weight either way.
pub(crate) fn are_allowed(asked: &Asked, prices: &[(u32, i64)]) -> bool
    requires { IsAsked asked.now }
    ensures { result ≡ are_allowed (question_of asked.now).terms prices.now }
{
    for entry in prices {
        if !is_allowed(asked, *entry) {
            return false;
        }
    }
    true
}

/// Whether one price is.
fn is_allowed(asked: &Asked, entry: (u32, i64)) -> bool
    requires { IsAsked asked.now }
    ensures { result ≡ list_any (allows entry) (question_of asked.now).terms }
{
    if asked.numbers.binary_search(&entry.0).is_err() {
        return false;
    }
    may_have(asked.problem.terms()[entry.0 as usize], entry.1)
}

/// Whether a term may have a price.
fn may_have(term: Term, price: i64) -> bool
    ensures { result ≡ may_have term price }
{
    match term {
        Term::Side { .. } => false,
        Term::Link { w, .. } | Term::Apart { w, .. } => price.unsigned_abs() <= 1000 * u64::from(w),
    }
}

/// The price of the term of this number, 0 where it has none.
pub(crate) fn price_at(prices: &[(u32, i64)], number: u32) -> i64
    requires { AreRisingPrices prices.now }
    ensures { result ≡ price_at prices.now number }
{
    match prices.binary_search_by_key(&number, |entry| entry.0) {
        Ok(k) => prices[k].1,
        Err(_) => 0,
    }
}
