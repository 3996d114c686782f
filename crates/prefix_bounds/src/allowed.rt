//! Which prices are allowed.

ghost use Rattle.std.specs.Prelude.{◌≡◌, ℕ, ℤ, ◌<◌, ◌≤◌, true, length, unsigned_abs};
ghost use Rattle.std.specs.List.{list_any};
ghost use Rattle.order_model.specs.declared.term.Term.{Term};
ghost use Rattle.order_model.specs.Problems.{IsTerm};
ghost use Rattle.order_model.specs.PartTerms.{part_terms};
ghost use Rattle.order_model.specs.Prefixes.{IsPrefixOf};
ghost use Rattle.order_bound.specs.Values.{allows, are_allowed};
ghost use Rattle.order_values.specs.PriceLists.{price_at};
ghost use Rattle.order_check.specs.Prices.{may_have};
ghost use Rattle.prefix_bounds.specs.SlotsSoFar.{AreSmallPrices};

use crate::terms::{is_of, term_at, term_count};
use map_base::SegId;
use order_model::{Prefix, Problem, Term};

/// Whether each price is allowed on one of a part's terms.
pub(crate) fn are_allowed(
    problem: &Problem,
    part: &[SegId],
    prefix: &Prefix,
    list: &[(u32, i64)],
) -> bool
    requires fits { IsPrefixOf problem.now.segs prefix.now }
    ensures allowed { result ≡ are_allowed prefix.now.placed (part_terms problem.now.terms part.now) list.now }
    ensures small { result ≡ true → AreSmallPrices list.now }
{
    for entry in list {
        if !is_allowed(problem, part, prefix, *entry) {
            return false;
        }
    }
    true
}

/// Whether a price is allowed on the term of its number: that is of the part, and may have it.
fn is_allowed(problem: &Problem, part: &[SegId], prefix: &Prefix, entry: (u32, i64)) -> bool
    requires fits { IsPrefixOf problem.now.segs prefix.now }
    ensures allowed { result ≡ list_any (λ (t : ℕ × Term). allows prefix.now.placed entry t.0 t.1) (part_terms problem.now.terms part.now) }
    ensures small { result ≡ true → unsigned_abs entry.1 ≤ 256000 }
{
    let number = entry.0 as usize;
    let price = price_in(entry);
    if number >= term_count(problem) {
        return false;
    }
    let term = term_at(problem, number);
    if !is_of(part, term) {
        return false;
    }
    may_have(problem, prefix, term, price)
}

/// The price beside a number.
fn price_in(entry: (u32, i64)) -> i64
    ensures { result ≡ entry.1 }
{
    entry.1
}

/// Whether a term may have a price: it is a Link whose lines are decided on neither segment, and the price is at most its
/// weight either way.
fn may_have(problem: &Problem, prefix: &Prefix, term: Term, price: i64) -> bool
    requires fits { IsPrefixOf problem.now.segs prefix.now }
    requires term { IsTerm problem.now.segs term }
    ensures may { result ≡ may_have prefix.now.placed term price }
    ensures small { result ≡ true → unsigned_abs price ≤ 256000 }
{
    match term {
        Term::Side { .. } | Term::Apart { .. } => false,
        Term::Link {
            seg,
            other,
            a,
            b,
            w,
            ..
        } => {
            if prefix.is_decided(problem, seg, a, b) {
                return false;
            }
            if prefix.is_decided(problem, other, a, b) {
                return false;
            }
            price.unsigned_abs() <= u64::from(w)
        }
    }
}

/// The price of the Link of a number, 0 where it has none.
pub(crate) fn price_of(list: &[(u32, i64)], number: u32) -> i64
    requires { AreSmallPrices list.now }
    ensures price { result ≡ price_at list.now number }
    ensures small { unsigned_abs result ≤ 256000 }
{
    for entry in list {
        if entry.0 == number {
            return entry.1;
        }
    }
    0
}
