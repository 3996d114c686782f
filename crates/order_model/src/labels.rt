//! Labels of segments: two segments have one label where the one is reached from the other over Links and Aparts.

ghost use Rattle.std.specs.Prelude.{◌≡◌, ℕ, List, ◌<◌, ◌≤◌, ◌^◌, length, All, IfOk, slice_index, slice_set};
ghost use Rattle.order_model.specs.Costs.{IsReadable};
ghost use Rattle.order_model.specs.Parts.{joined, joined_by, AreLabels, AreOwnLabels, PointDown, PointWithin};

use crate::term::Term;
use map_base::{NoMemory, SegId};
use std::alloc::Global;

/// A label for each segment: the least segment of its class.
pub(crate) fn labels_of(alloc: Global, terms: &[Term], count: u32) -> Result<Vec<u32>, NoMemory>
    requires { All (IsReadable count) terms.now }
    ensures { IfOk result (λ labels. AreLabels terms.now count labels.items) }
{
    let mut parents = own_labels(alloc, count)?;
    for term in terms {
        join_by(parents.as_mut_slice(), *term);
    }
    point_at_labels(parents.as_mut_slice());
    Ok(parents)
}

/// Each segment is a class of its own.
fn own_labels(alloc: Global, count: u32) -> Result<Vec<u32>, NoMemory>
    ensures len { IfOk result (λ labels. length labels.items ≡ count) }
    ensures own { IfOk result (λ labels. (s : ℕ) → s < count → slice_index labels.items s ≡ s) }
{
    let mut labels = Vec::new(alloc);
    for s in 0..count {
        labels.push(s)?;
    }
    Ok(labels)
}

/// Makes the classes of the two segments of a `Link` or an `Apart` one.
fn join_by(parents: &mut [u32], term: Term)
    requires readable { IsReadable (length parents.old) term }
    requires down { PointDown parents.old }
    ensures down { PointDown parents.new }
    ensures within { (ls : List ℕ) → AreOwnLabels ls → PointWithin ls parents.old → PointWithin (joined_by ls term) parents.new }
{
    match term {
        Term::Side { .. } => {}
        Term::Link { seg, other, .. } | Term::Apart { seg, other, .. } => join(parents, seg, other),
    }
}

/// Makes the classes of two segments one: the higher of their two labels points at the lower.
fn join(parents: &mut [u32], e: SegId, f: SegId)
    requires known { e.0 < length parents.old }
    requires other_known { f.0 < length parents.old }
    requires down { PointDown parents.old }
    ensures down { PointDown parents.new }
    ensures within { (ls : List ℕ) → AreOwnLabels ls → PointWithin ls parents.old
        → PointWithin (joined ls (slice_index ls e.0) (slice_index ls f.0)) parents.new }
{
    let a = label_of(parents, e.0);
    let b = label_of(parents, f.0);
    parents[a.max(b) as usize] = a.min(b);
}

/// The label of a segment: where it leads, over the segments that each points at. These then point further.
fn label_of(parents: &mut [u32], s: u32) -> u32
    requires known { s < length parents.old }
    requires down { PointDown parents.old }
    ensures below { result ≤ s }
    ensures down { PointDown parents.new }
    ensures within { (ls : List ℕ) → PointWithin ls parents.old → PointWithin ls parents.new }
    ensures label { (ls : List ℕ) → PointWithin ls parents.old → result ≡ slice_index ls s }
{
    let mut at = s;
    while parents[at as usize] != at {
        at = point_further(parents, at);
    }
    at
}

/// Lets a segment point at what the one that it points at points at.
fn point_further(parents: &mut [u32], s: u32) -> u32
    requires known { s < length parents.old }
    requires down { PointDown parents.old }
    ensures value { result ≡ slice_index parents.old (slice_index parents.old s) }
    ensures set { parents.new ≡ slice_set parents.old s result }
{
    let parent = parents[s as usize];
    let further = parents[parent as usize];
    parents[s as usize] = further;
    further
}

/// Lets each segment point at its label.
fn point_at_labels(parents: &mut [u32])
    requires few { length parents.old < 2 ^ 32 }
    requires down { PointDown parents.old }
    ensures { (ls : List ℕ) → PointWithin ls parents.old → parents.new ≡ ls }
{
    for s in 0..parents.len() {
        let _label = point_further(parents, s as u32);
    }
}
