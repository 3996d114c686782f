//! Prices on terms.

ghost use Rattle.std.specs.Prelude.{◌≡◌};

use std::marker::Model;

/// Prices by the number of their term, the numbers strictly rising; seen as their list.
#[derive(Debug, Drop)]
pub struct Prices {
    list: Vec<(u32, i64)>,
}

impl Model for Prices {
    ghost use Rattle.std.specs.Prelude.{List, ℕ, ℤ};

    ghost Value = { List (ℕ × ℤ) };

    ghost use Rattle.order_values.specs.PriceLists.{AreRisingPrices};

    ghost view = { λ p. p.list.items };

    ghost invariant = { λ p. AreRisingPrices p.list.items };
}

impl Prices {
    ghost use Rattle.order_values.specs.PriceLists.{AreRisingPrices};

    /// The prices of this list.
    pub fn of(list: Vec<(u32, i64)>) -> Prices
        requires { AreRisingPrices list.items }
        ensures { result ≡ list.items }
    {
        Prices { list }
    }

    /// Each term's number with its price.
    pub fn as_slice(&self) -> &[(u32, i64)]
        ensures list { result.now ≡ self.now }
        ensures rising { AreRisingPrices self.now }
    {
        self.list.as_slice()
    }
}
