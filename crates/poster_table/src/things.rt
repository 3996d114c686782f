//! Whether things clash.

ghost use Rattle.std.specs.Prelude.{◌≡◌, ◌==◌, ◌||◌};
ghost use Rattle.poster_plan.specs.Things.{are_kin, clash, has_node};

use eight_sides::meet;
use poster_plan::{Kin, Thing};

/// Whether a node is one of a thing's.
fn has_node(node: u32, kin: Kin) -> bool
    ensures { result ≡ has_node node kin }
{
    match kin {
        Kin::Nobody => false,
        Kin::Node(n) => n == node,
        Kin::Ends(a, b) => is_either(node, a, b),
    }
}

/// Whether a node is one of two.
fn is_either(node: u32, a: u32, b: u32) -> bool
    ensures { result ≡ ((a == node) || (b == node)) }
{
    if a == node {
        return true;
    }
    b == node
}

/// Whether two things have a node in common.
fn are_kin(a: Kin, b: Kin) -> bool
    ensures { result ≡ are_kin a b }
{
    match a {
        Kin::Nobody => false,
        Kin::Node(n) => has_node(n, b),
        Kin::Ends(n, m) => has_either(n, m, b),
    }
}

/// Whether one of two nodes is one of a thing's.
fn has_either(n: u32, m: u32, kin: Kin) -> bool
    ensures { result ≡ (has_node n kin || has_node m kin) }
{
    if has_node(n, kin) {
        return true;
    }
    has_node(m, kin)
}

/// Whether two things that have no node in common meet.
pub(crate) fn clash(a: Thing, b: Thing) -> bool
    ensures { result ≡ clash a b }
{
    if are_kin(a.kin, b.kin) {
        return false;
    }
    meet(a.shape, b.shape)
}
