//! The prices of a tree.

ghost use Rattle.std.specs.Prelude.{◌≡◌, ◌<◌, length, map, false, All, Contains, IfOk, OnOk};
ghost use Rattle.graph_core.specs.Consistent.{AreRising};
ghost use Rattle.order_model.specs.Problems.{lines_on};
ghost use Rattle.order_model.specs.Prefixes.{is_placed};
ghost use Rattle.order_model.specs.Completions.{placed_more};
ghost use Rattle.order_proof.specs.Plain.{plain, plain_children};
ghost use Rattle.part_bounds.specs.PartStates.{IsWell};
ghost use Rattle.order_search.specs.Pricing.{with_prices, priced_case, IsOver, AreOver};
ghost use Rattle.order_search.specs.Searching.{part_of};

use map_base::{LineId, NoMemory, SegId};
use order_proof::Tree;
use part_bounds::PartBounds;
use std::alloc::Global;

/// The tree of a prefix with the prices of each Close.
#[cycle(priced)]
pub(crate) fn priced(alloc: Global, bounds: &mut PartBounds, tree: &Tree) -> Result<Tree, NoMemory>
    requires rising { All AreRising bounds.old.segs }
    requires well { IsWell bounds.old.segs bounds.old.placed }
    requires over { IsOver bounds.old.segs bounds.old.placed (plain tree.now) }
    ensures tree { IfOk result (λ t. plain t ≡ with_prices (part_of bounds.old) bounds.old.placed (plain tree.now)) }
    ensures kept { OnOk result (bounds.new ≡ bounds.old) }
{
    match tree {
        Tree::Close { .. } => {
            let prices = bounds.prices(alloc)?;
            Ok(Tree::Close { prices })
        }
        Tree::Split { seg, children } => {
            let children = priced_cases(alloc, bounds, *seg, children.as_slice())?;
            Ok(Tree::Split {
                seg: *seg,
                children,
            })
        }
    }
}

/// The cases of a Split with the prices of each Close.
#[cycle(priced)]
fn priced_cases(
    alloc: Global,
    bounds: &mut PartBounds,
    seg: SegId,
    children: &[(LineId, Tree)],
) -> Result<Vec<(LineId, Tree)>, NoMemory>
    requires rising { All AreRising bounds.old.segs }
    requires well { IsWell bounds.old.segs bounds.old.placed }
    requires known { seg.0 < length bounds.old.segs }
    requires over { AreOver bounds.old.segs bounds.old.placed seg (plain_children children.now) }
    ensures cases { IfOk result (λ v. map (λ c. (c.0, plain c.1)) v.items
        ≡ map (priced_case (part_of bounds.old) bounds.old.placed seg) children.now) }
    ensures kept { OnOk result (bounds.new ≡ bounds.old) }
{
    let mut cases = Vec::with_capacity(alloc, children.len())?;
    for child in children {
        let tree = priced_case(alloc, bounds, seg, child.0, &child.1)?;
        cases.push((child.0, tree))?;
    }
    Ok(cases)
}

/// The tree of a case with the prices of each Close.
#[cycle(priced)]
fn priced_case(
    alloc: Global,
    bounds: &mut PartBounds,
    seg: SegId,
    line: LineId,
    tree: &Tree,
) -> Result<Tree, NoMemory>
    requires rising { All AreRising bounds.old.segs }
    requires well { IsWell bounds.old.segs bounds.old.placed }
    requires known { seg.0 < length bounds.old.segs }
    requires line { Contains (lines_on bounds.old.segs seg) line }
    requires unplaced { is_placed (lines_on bounds.old.placed seg) line ≡ false }
    requires over { IsOver bounds.old.segs (placed_more bounds.old.segs bounds.old.placed seg line) (plain tree.now) }
    ensures tree { IfOk result (λ t. plain t ≡ with_prices (part_of bounds.old) (placed_more bounds.old.segs bounds.old.placed seg line) (plain tree.now)) }
    ensures kept { OnOk result (bounds.new ≡ bounds.old) }
{
    bounds.place(seg, line);
    let tree = priced(alloc, bounds, tree)?;
    bounds.take_back(seg);
    Ok(tree)
}
