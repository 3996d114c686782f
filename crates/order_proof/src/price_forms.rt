//! Lists of prices in lines.

ghost use Rattle.std.specs.Prelude.{◌≡◌, ◌≤◌, pos, length, slice_index_or, option_map, IfOk, IfSome};
ghost use Rattle.order_values.specs.PriceLists.{AreRisingPrices};
ghost use Rattle.order_proof.specs.Forms.{price_of, priced_term, prices_from, counts, counted_prices};

use decimal_text::from_to;
use map_base::NoMemory;
use order_values::Prices;
use std::alloc::Global;

/// A price: not 0, and at most so much either way.
fn price_of(most: u64, number: i64) -> Option<i64>
    ensures { result ≡ price_of most number }
{
    if number == 0 || number.unsigned_abs() > most {
        return None;
    }
    Some(number)
}

/// Whether a number counts so many things.
fn counts(things: usize, number: i64) -> bool
    ensures { result ≡ counts things number }
{
    number >= 0 && number as u64 == things as u64
}

/// The number of a term and its price, at the front of numbers.
fn front_price(most: u64, least: u64, numbers: &[i64]) -> Option<(u32, i64)>
    requires { 2 ≤ length numbers.now }
    ensures value { result ≡ priced_term most least (slice_index_or numbers.now 0 (pos 0)) (slice_index_or numbers.now 1 (pos 0)) }
    ensures least { IfSome result (λ p. least ≤ p.0) }
{
    let term = from_to(least, u64::from(u32::MAX), numbers[0])?;
    let price = price_of(most, numbers[1])?;
    Some((term as u32, price))
}

/// Prices of at most so much, each behind the number of its term. The numbers of the terms rise strictly.
fn prices_in(alloc: Global, most: u64, numbers: &[i64]) -> Result<Option<Vec<(u32, i64)>>, NoMemory>
    ensures prices { IfOk result (λ prices. option_map (λ v. v.items) prices ≡ prices_from most 0 numbers.now) }
    ensures rising { IfOk result (λ prices. IfSome prices (λ v. AreRisingPrices v.items)) }
{
    let mut prices = Vec::new(alloc);
    let mut least = 0;
    let mut rest = numbers;
    while rest.len() >= 2 {
        let Some(price) = front_price(most, least, rest) else {
            return Ok(None);
        };
        prices.push(price)?;
        least = u64::from(price.0) + 1;
        rest = rest.split_at(2).1;
    }
    if rest.is_empty() {
        Ok(Some(prices))
    } else {
        Ok(None)
    }
}

/// Prices of at most so much, behind their count.
pub(crate) fn counted_prices(
    alloc: Global,
    most: u64,
    count: i64,
    numbers: &[i64],
) -> Result<Option<Prices>, NoMemory>
    ensures { IfOk result (λ prices. prices ≡ counted_prices most count numbers.now) }
{
    let Some(list) = prices_in(alloc, most, numbers)? else {
        return Ok(None);
    };
    if !counts(list.len(), count) {
        return Ok(None);
    }
    Ok(Some(Prices::of(list)))
}
