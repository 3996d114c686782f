//! Where the uses of an edge stand among uses in order.

ghost use Rattle.std.specs.Prelude.{◌≡◌, ◌≤◌, filter, length};
ghost use Rattle.std.specs.List.Sorted.{IsSortedBy};
ghost use Rattle.way_network.specs.Uses.{IsRank, is_from, is_over, stands_before, use_is_before};

use crate::edge_use::EdgeUse;

fn stands_before(u: EdgeUse, p: u64, q: u64) -> bool
    ensures { result ≡ stands_before p q u }
{
    let from = u64::from(u.from);
    if from == p {
        return u64::from(u.to) < q;
    }
    from < p
}

/// How many uses stand before those of the edge from `p` to `q`.
fn rank(uses: &[EdgeUse], p: u64, q: u64) -> usize
    requires { IsSortedBy use_is_before uses.now }
    ensures within { result ≤ length uses.now }
    ensures parted { IsRank uses.now p q result }
{
    uses.partition_point(|u| stands_before(*u, p, q))
}

/// The uses of edges from point `p`.
pub(crate) fn uses_from(uses: &[EdgeUse], p: u32) -> &[EdgeUse]
    requires { IsSortedBy use_is_before uses.now }
    ensures { result.now ≡ filter (is_from p) uses.now }
{
    let p = u64::from(p);
    let low = rank(uses, p, 0);
    let high = rank(uses, p + 1, 0);
    &uses[low..high]
}

/// The uses of the edge from `p` to `q`.
pub(crate) fn uses_over(uses: &[EdgeUse], p: u32, q: u32) -> &[EdgeUse]
    requires { IsSortedBy use_is_before uses.now }
    ensures { result.now ≡ filter (is_over p q) uses.now }
{
    let p = u64::from(p);
    let q = u64::from(q);
    let low = rank(uses, p, q);
    let high = rank(uses, p, q + 1);
    &uses[low..high]
}
