//! Trees with the numbers of a part in its problem.

ghost use Rattle.std.specs.Prelude.{◌≡◌, map, IfOk};
ghost use Rattle.order_values.specs.PriceLists.{AreRisingPrices};
ghost use Rattle.order_values.specs.DualTrees.{plain_dual};
ghost use Rattle.order_proof.specs.Plain.{plain, plain_children, plain_part_tree};
ghost use Rattle.order_proof.specs.Trees.{IsTree, AreTrees, IsDualTree, IsPartTree};
ghost use Rattle.order_search.specs.ByItself.{renumbered, seg_from, number_from, prices_by, cases_by};
ghost use Rattle.kept_trees.specs.Renumbered.{renumbered_case, renumbered_dual, renumbered_tree};

use map_base::{LineId, NoMemory, SegId};
use order_proof::{PartTree, Tree};
use order_values::{DualTree, Prices};
use std::alloc::Global;

/// A part's tree, of the part by itself, with the numbers that its segments and its terms have in the problem: those of
/// `part` and of `numbers`, in their order. The tree that comes of it is to be one, its terms rising.
pub(crate) fn renumbered_tree(
    alloc: Global,
    tree: &PartTree,
    part: &[SegId],
    numbers: &[u32],
) -> Result<PartTree, NoMemory>
    requires { IsPartTree (renumbered_tree part.now numbers.now (plain_part_tree tree.now)) }
    ensures { IfOk result (λ t. plain_part_tree t ≡ renumbered_tree part.now numbers.now (plain_part_tree tree.now)) }
{
    match tree {
        PartTree::ByCases(tree) => {
            let tree = renumbered(alloc, tree, part, numbers)?;
            Ok(PartTree::ByCases(tree))
        }
        PartTree::ByPairs(tree) => {
            let tree = renumbered_dual(alloc, tree, part, numbers)?;
            Ok(PartTree::ByPairs(tree))
        }
    }
}

/// A dual tree of a part by itself, with the numbers that its segments and its terms have in the problem.
fn renumbered_dual(
    alloc: Global,
    tree: &DualTree,
    part: &[SegId],
    numbers: &[u32],
) -> Result<DualTree, NoMemory>
    requires { IsDualTree (renumbered_dual part.now numbers.now (plain_dual tree.now)) }
    ensures { IfOk result (λ t. plain_dual t ≡ renumbered_dual part.now numbers.now (plain_dual tree.now)) }
{
    match tree {
        DualTree::Stop { prices } => {
            let prices = renumbered_prices(alloc, prices, numbers)?;
            Ok(DualTree::Stop { prices })
        }
        DualTree::Fork {
            seg,
            a,
            b,
            first,
            second,
        } => {
            let first = renumbered_dual(alloc, first, part, numbers)?;
            let second = renumbered_dual(alloc, second, part, numbers)?;
            let first = Box::new(alloc, first)?;
            let second = Box::new(alloc, second)?;
            Ok(DualTree::Fork {
                seg: seg_from(part, *seg),
                a: *a,
                b: *b,
                first,
                second,
            })
        }
    }
}

/// A tree of cases of a part by itself, with the numbers that its segments and its terms have in the problem.
#[cycle(renumbered)]
pub fn renumbered(
    alloc: Global,
    tree: &Tree,
    part: &[SegId],
    numbers: &[u32],
) -> Result<Tree, NoMemory>
    requires { IsTree (renumbered part.now numbers.now (plain tree.now)) }
    ensures { IfOk result (λ t. plain t ≡ renumbered part.now numbers.now (plain tree.now)) }
{
    match tree {
        Tree::Close { prices } => {
            let prices = renumbered_prices(alloc, prices, numbers)?;
            Ok(Tree::Close { prices })
        }
        Tree::Split { seg, children } => {
            let children = renumbered_cases(alloc, children.as_slice(), part, numbers)?;
            Ok(Tree::Split {
                seg: seg_from(part, *seg),
                children,
            })
        }
    }
}

/// The cases of a Split of a part by itself, with the numbers that their segments and terms have in the problem.
#[cycle(renumbered)]
fn renumbered_cases(
    alloc: Global,
    children: &[(LineId, Tree)],
    part: &[SegId],
    numbers: &[u32],
) -> Result<Vec<(LineId, Tree)>, NoMemory>
    requires { AreTrees (cases_by (seg_from part.now) (number_from numbers.now) (plain_children children.now)) }
    ensures { IfOk result (λ v.
        map (λ c. (c.0, plain c.1)) v.items ≡ map (renumbered_case part.now numbers.now) children.now) }
{
    let mut cases = Vec::with_capacity(alloc, children.len())?;
    for child in children {
        let tree = renumbered(alloc, &child.1, part, numbers)?;
        cases.push((child.0, tree))?;
    }
    Ok(cases)
}

/// Prices of terms with the numbers that the terms have in the problem.
#[tactic(auto, using(std::proofs::lemmas::List::map_more))]
fn renumbered_prices(alloc: Global, prices: &Prices, numbers: &[u32]) -> Result<Prices, NoMemory>
    requires { AreRisingPrices (prices_by (number_from numbers.now) prices.now) }
    ensures { IfOk result (λ p. p ≡ prices_by (number_from numbers.now) prices.now) }
{
    let list = prices.as_slice();
    let mut changed = Vec::with_capacity(alloc, list.len())?;
    for price in list {
        changed.push((number_from(numbers, price.0), price.1))?;
    }
    Ok(Prices::of(changed))
}

/// The segment at a place of the part, 0 where there is none.
fn seg_from(part: &[SegId], place: SegId) -> SegId
    ensures { result ≡ seg_from part.now place }
{
    match part.get(place.0 as usize) {
        Some(seg) => *seg,
        None => SegId(0),
    }
}

/// The number at a place of these, 0 where there is none.
fn number_from(numbers: &[u32], place: u32) -> u32
    ensures { result ≡ number_from numbers.now place }
{
    match numbers.get(place as usize) {
        Some(number) => *number,
        None => 0,
    }
}
