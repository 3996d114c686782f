//! The walk over the trees of kept Links: each segment but the roots with the Link to its parent, parents first.

ghost use Rattle.std.specs.Prelude.{◌≡◌, ◌<◌, ◌≤◌, ◌+◌, ◌++◌, ◌∷◌, [], ℕ, not, length, map, filter, reverse};
ghost use Rattle.std.specs.Vec.{vec_len, vec_capacity};
ghost use Rattle.map_base.specs.declared.ids.SegId.{SegId};
ghost use Rattle.order_bound.specs.declared.pairs.OpenLink.{OpenLink};
ghost use Rattle.order_bound.specs.CanonicalPrices.{ends_at, far_end, child_link, walked};

use map_base::SegId;
use order_bound::{ChildLink, OpenLink};

/// Whether a Link ends at a segment.
pub(crate) fn ends_at(seg: SegId, link: OpenLink) -> bool
    ensures { result ≡ ends_at seg link }
{
    if link.seg.0 == seg.0 {
        return true;
    }
    link.other.0 == seg.0
}

/// Whether a Link doesn't end at a segment.
fn is_elsewhere(seg: SegId, link: OpenLink) -> bool
    ensures { result ≡ not (ends_at seg link) }
{
    !ends_at(seg, link)
}

/// A Link of a parent, with the child.
fn child_link(parent: SegId, link: OpenLink) -> ChildLink
    ensures { result ≡ child_link parent link }
{
    let child = if link.seg.0 == parent.0 {
        link.other
    } else {
        link.seg
    };
    ChildLink { child, link }
}

/// Adds the children of a segment by the Links that are left.
fn push_children(parent: SegId, links: &[OpenLink], children: &mut Vec<ChildLink>)
    requires room { vec_len children.old + length links.now ≤ vec_capacity children.old }
    ensures items { children.new.items ≡ children.old.items ++ map (child_link parent) (filter (ends_at parent) links.now) }
    ensures room { vec_capacity children.old ≤ vec_capacity children.new }
{
    for link in links {
        push_child(parent, *link, children);
    }
}

/// Adds the child of a segment by a Link, if it ends there.
fn push_child(parent: SegId, link: OpenLink, children: &mut Vec<ChildLink>)
    requires room { vec_len children.old < vec_capacity children.old }
    ensures items { children.new.items ≡ children.old.items ++ map (child_link parent) (filter (ends_at parent) (link ∷ [])) }
    ensures room { vec_capacity children.old ≤ vec_capacity children.new }
{
    if ends_at(parent, link) {
        let _ = children.push(child_link(parent, link));
    }
}

/// Lets the far ends of a segment's Links wait, the first of them last, so that it comes in turn first.
fn push_waiting(parent: SegId, links: &[OpenLink], waiting: &mut Vec<SegId>)
    requires room { vec_len waiting.old + length links.now ≤ vec_capacity waiting.old }
    ensures items { waiting.new.items ≡ waiting.old.items ++ reverse (map (far_end parent) (filter (ends_at parent) links.now)) }
    ensures room { vec_capacity waiting.old ≤ vec_capacity waiting.new }
{
    let mut left = links.len();
    while left > 0 {
        left -= 1;
        push_far_end(parent, links[left], waiting);
    }
}

/// Lets the far end of a segment's Link wait, if the Link ends there.
fn push_far_end(parent: SegId, link: OpenLink, waiting: &mut Vec<SegId>)
    requires room { vec_len waiting.old < vec_capacity waiting.old }
    ensures items { waiting.new.items ≡ waiting.old.items ++ map (far_end parent) (filter (ends_at parent) (link ∷ [])) }
    ensures room { vec_capacity waiting.old ≤ vec_capacity waiting.new }
{
    if ends_at(parent, link) {
        let _ = waiting.push(child_link(parent, link).child);
    }
}

/// Leaves the Links that don't end at a segment.
fn leave_others(parent: SegId, links: &mut Vec<OpenLink>)
    ensures items { links.new.items ≡ filter (λ l. not (ends_at parent l)) links.old.items }
    ensures room { vec_capacity links.new ≡ vec_capacity links.old }
{
    links.retain(|link| is_elsewhere(parent, *link));
}

/// Walks on from the segments that wait, the last of them first, until none waits.
pub(crate) fn walk(
    waiting: &mut Vec<SegId>,
    links: &mut Vec<OpenLink>,
    children: &mut Vec<ChildLink>,
)
    requires waiting { vec_len waiting.old + vec_len links.old ≤ vec_capacity waiting.old }
    requires children { vec_len children.old + vec_len links.old ≤ vec_capacity children.old }
    ensures items { children.new.items ≡ children.old.items ++ walked (vec_len waiting.old + vec_len links.old) (reverse waiting.old.items) links.old.items }
    ensures waiting { vec_capacity waiting.old ≤ vec_capacity waiting.new }
    ensures links { vec_capacity links.old ≤ vec_capacity links.new }
    ensures children { vec_capacity children.old ≤ vec_capacity children.new }
{
    while let Some(parent) = waiting.pop() {
        push_children(parent, links, children);
        push_waiting(parent, links, waiting);
        leave_others(parent, links);
    }
}
