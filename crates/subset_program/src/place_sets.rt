//! Sets of places, a bit for each.

ghost use Rattle.std.specs.Prelude.{◌≡◌, ◌≤◌, ◌<◌, ◌^◌};
ghost use Rattle.least_orders.specs.Subsets.{has_place, with_place};

/// Whether a set has this place.
pub(crate) fn has_place(set: usize, k: usize) -> bool
    requires { k < 16 }
    ensures { result ≡ has_place set k }
{
    (set >> k) & 1 == 1
}

/// The set with this place, too.
pub(crate) fn with_place(set: usize, k: usize) -> usize
    requires { k < 16 }
    ensures { result ≡ with_place set k }
{
    set | (1 << k)
}

/// How many sets of so many places there are.
pub(crate) fn sets_of(count: usize) -> usize
    requires { count ≤ 16 }
    ensures value { result ≡ 2 ^ count }
    ensures few { result ≤ 65536 }
{
    1 << count
}
