//! Prices noted by the number of their Link.

ghost use Rattle.std.specs.Prelude.{◌≡◌, ℕ, ◌==◌, ◌<◌, pos, length, replicate, IfOk, if◌then◌else◌};
ghost use Rattle.pair_bounds.specs.PriceNotes.{price_noted};

use map_base::NoMemory;
use std::alloc::Global;

/// Prices of Links by the number of their term in the problem, 0 where none is noted.
#[derive(Drop)]
pub struct NotedPrices {
    pub prices: Vec<i64>,
}

impl NotedPrices {
    /// No price yet, for so many terms.
    pub fn none(alloc: Global, terms: usize) -> Result<NotedPrices, NoMemory>
        ensures none { IfOk result (λ n. n.prices.items ≡ replicate terms (pos 0)) }
    {
        let prices = vec![in alloc; 0_i64; terms]?;
        Ok(NotedPrices { prices })
    }

    /// The price of a number.
    pub fn of(&self, number: u32) -> i64
        ensures { result ≡ price_noted self.now.prices.items number }
    {
        price_of(self.prices.as_slice(), number)
    }

    /// Notes the price of a number.
    pub fn note(&mut self, number: u32, price: i64)
        ensures each { length self.new.prices.items ≡ length self.old.prices.items }
        ensures noted { (k : ℕ) → k < length self.old.prices.items → price_noted self.new.prices.items k ≡ (if number == k then price else price_noted self.old.prices.items k) }
    {
        note_price(&mut self.prices, number, price);
    }
}

/// The price of a number, 0 where it has none.
fn price_of(prices: &[i64], number: u32) -> i64
    ensures { result ≡ price_noted prices.now number }
{
    let place = number as usize;
    if place < prices.len() {
        prices[place]
    } else {
        0
    }
}

/// Notes the price of a number that has a place.
#[tactic(auto, using(crate::proofs::Noted::note_within, crate::proofs::Noted::note_beyond))]
fn note_price(prices: &mut Vec<i64>, number: u32, price: i64)
    ensures each { length prices.new.items ≡ length prices.old.items }
    ensures noted { (k : ℕ) → k < length prices.old.items → price_noted prices.new.items k ≡ (if number == k then price else price_noted prices.old.items k) }
{
    let place = number as usize;
    if place < prices.len() {
        prices[place] = price;
    }
}
