//! How wide texts are.

ghost use Rattle.std.specs.Prelude.{◌≡◌, ◌≤◌, ◌↔◌, ℕ, IfOk, IsOk};

use map_base::NoMemory;
use std::marker::Model;

/// How wide a text is, in tenths of the size of its type or in units: 17,179,869,184 at most, so that places can be reckoned
/// with.
#[derive(Clone, Copy, Debug)]
pub struct TextWidth {
    number: u64,
}

impl Model for TextWidth {
    ghost Value = { ℕ };

    ghost view = { λ w. w.number };

    ghost invariant = { λ w. w.number ≤ 17179869184 };

    ghost inverse = { λ n. record { number = n } };
}

impl TextWidth {
    /// A width of nothing.
    pub fn none() -> Self
        ensures { result ≡ 0 }
    {
        TextWidth { number: 0 }
    }

    /// So much. For more than can be reckoned with there is no room.
    pub fn of(number: u64) -> Result<Self, NoMemory>
        ensures value { IfOk result (λ w. w ≡ number) }
        ensures room { IsOk result ↔ (number ≤ 17179869184) }
    {
        if number > 17_179_869_184 {
            return Err(NoMemory);
        }
        Ok(TextWidth { number })
    }

    /// How much it is.
    pub fn number(self) -> u64
        ensures value { result ≡ self }
        ensures small { result ≤ 17179869184 }
    {
        self.number
    }
}
