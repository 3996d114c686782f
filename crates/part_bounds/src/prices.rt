//! Noted prices, listed by the numbers of their terms.

ghost use Rattle.std.specs.Prelude.{◌≡◌, ◌++◌, IfOk, OnOk};
ghost use Rattle.order_bound.specs.CanonicalPrices.{listed};
ghost use Rattle.pair_bounds.specs.PriceNotes.{price_noted, listed_all};

use map_base::NoMemory;
use pair_bounds::NotedPrices;
use std::alloc::Global;

/// The prices of these numbers, but for those that are 0.
pub(crate) fn listed_all(
    alloc: Global,
    numbers: &[u32],
    noted: &NotedPrices,
) -> Result<Vec<(u32, i64)>, NoMemory>
    ensures { IfOk result (λ list. list.items ≡ listed_all (price_noted noted.now.prices.items) numbers.now) }
{
    let mut list = Vec::new(alloc);
    for n in numbers {
        push_price(&mut list, *n, noted.of(*n))?;
    }
    Ok(list)
}

/// Adds the price of a number, unless it is 0.
fn push_price(list: &mut Vec<(u32, i64)>, number: u32, price: i64) -> Result<(), NoMemory>
    ensures { OnOk result (list.new.items ≡ list.old.items ++ listed number price) }
{
    if price != 0 {
        list.push((number, price))?;
    }
    Ok(())
}
