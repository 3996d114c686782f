//! Which lines have to stand before a line by chains of settled pairs.

ghost use Rattle.std.specs.Prelude.{◌≡◌, ℕ, ◌<◌, ◌≤◌, ◌^◌, length, slice_index};
ghost use Rattle.least_orders.specs.Subsets.{has_place};
ghost use Rattle.dual_orders.specs.Closing.{stepped, stepped_by};

/// The set of the lines that have to stand before line `j` by chains of at most so many pairs. For each line `direct` has those
/// that stand before it by one pair.
pub(crate) fn all_ahead(direct: &[u32], count: usize, j: usize, most: usize) -> u32
    requires few { count ≤ 16 }
    requires room { count ≤ length direct.now }
    requires known { j < count }
    ensures { result ≡ stepped_by direct.now count j most 0 }
{
    let mut set = 0;
    for _ in 0..most {
        let more = stepped(direct, count, j, set);
        if more == set {
            return set;
        }
        set = more;
    }
    set
}

/// The lines that stand before line `j` by one pair, and before those of a set.
fn stepped(direct: &[u32], count: usize, j: usize, set: u32) -> u32
    requires few { count ≤ 16 }
    requires room { count ≤ length direct.now }
    requires known { j < count }
    ensures { result ≡ stepped direct.now count j set }
{
    let mut all = direct[j];
    for k in 0..count {
        if has_place(set, k) {
            all |= direct[k];
        }
    }
    all
}

/// Whether a set has a place.
pub(crate) fn has_place(set: u32, k: usize) -> bool
    requires { k < 16 }
    ensures { result ≡ has_place set k }
{
    (set >> k) & 1 == 1
}
