//! A vector that contracts see as the list of its elements.

ghost use Rattle.std.specs.Prelude.{◌≡◌};

use std::marker::Model;

/// Elements in order. Contracts see it as their list, so a value that holds one can be compared with a
/// definition's. It is made from a `Vec` and gives it back without taking memory.
#[derive(Debug, Drop)]
pub struct Sequence<T> {
    held: Vec<T>,
}

impl<T> Model for Sequence<T> {
    ghost use Rattle.std.specs.Prelude.{List};

    ghost Value = { List T };

    ghost view = { λ s. s.held.items };
}

impl<T> Sequence<T> {
    /// The elements of `items`.
    pub fn of(items: Vec<T>) -> Sequence<T>
        ensures { result ≡ items.items }
    {
        Sequence { held: items }
    }

    /// The elements, as a slice.
    pub fn as_slice(&self) -> &[T]
        ensures { result.now ≡ self.now }
    {
        self.held.as_slice()
    }

    /// The elements, as the vector that it was made from.
    pub fn into_vec(self) -> Vec<T>
        ensures { result.items ≡ self }
    {
        self.held
    }
}
