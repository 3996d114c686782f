//! An entry of the table.

ghost use Rattle.std.specs.Prelude.{◌≡◌, ◌≤◌, ℤ, unsigned_abs, IfSome};
ghost use Rattle.subset_program.specs.Tables.{read};

/// A number that stands for there being none.
pub(crate) const NOTHING: i64 = 4_000_000_000_000_000_000;

/// Of a set of lines that stand first, and the last of these.
#[derive(Clone, Copy)]
pub(crate) struct Tail {
    /// What the last line costs with those that the set has not.
    pub(crate) left: i64,
    /// What the orders cost at least from the last line on; a number from 10 ^ 18 on where there are none.
    pub(crate) cost: i64,
}

/// What a number in an entry stands for.
pub(crate) fn read(cost: i64) -> Option<i64>
    ensures { result ≡ read cost }
{
    if cost < 1_000_000_000_000_000_000 {
        Some(cost)
    } else {
        None
    }
}

/// The number that stands for a cost, if there is one.
pub(crate) fn written(cost: Option<i64>) -> i64
    requires { IfSome cost (λ v. unsigned_abs v ≤ 600000000000000000) }
    ensures { read result ≡ cost }
{
    match cost {
        None => NOTHING,
        Some(v) => v,
    }
}
