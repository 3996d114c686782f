//! How many splits the trees of a proof have. More of them than a number of 64 bits counts are in no memory, so that is
//! answered as want of it.

ghost use Rattle.std.specs.Prelude.{◌≡◌, ◌≤◌, ◌+◌, ◌^◌, map, IfErr, IfOk};
ghost use Rattle.order_proof.specs.Plain.{plain, plain_part, plain_part_tree};
ghost use Rattle.order_proof.specs.Trees.{splits_of};
ghost use Rattle.trial_command.specs.Trials.{splits_of_parts, splits_of_tree};

use map_base::NoMemory;
use order_proof::{Part, PartTree, Tree};

/// The splits of the trees of all parts.
pub fn splits_of_parts(parts: &[Part]) -> Result<u64, NoMemory>
    ensures value { IfOk result (λ count. count ≡ splits_of_parts (map plain_part parts.now)) }
    ensures room { IfErr result (λ _. 2 ^ 64 ≤ splits_of_parts (map plain_part parts.now)) }
{
    let mut count = 0;
    for part in parts {
        count = with_part(count, &part.tree)?;
    }
    Ok(count)
}

/// The count with the splits of a part's tree. A dual tree has none.
fn with_part(before: u64, tree: &PartTree) -> Result<u64, NoMemory>
    ensures value { IfOk result (λ count. count ≡ before + splits_of_tree (plain_part_tree tree.now)) }
    ensures room { IfErr result (λ _. 2 ^ 64 ≤ before + splits_of_tree (plain_part_tree tree.now)) }
{
    match tree {
        PartTree::ByCases(tree) => with_splits(before, tree),
        PartTree::ByPairs(_) => Ok(before),
    }
}

/// The count with the splits of a tree.
#[tactic(auto, using(crate::proofs::SplitLemmas::splits_next))]
fn with_splits(before: u64, tree: &Tree) -> Result<u64, NoMemory>
    ensures value { IfOk result (λ count. count ≡ before + splits_of (plain tree.now)) }
    ensures room { IfErr result (λ _. 2 ^ 64 ≤ before + splits_of (plain tree.now)) }
{
    match tree {
        Tree::Close { .. } => Ok(before),
        Tree::Split { seg: _, children } => {
            let mut count = one_more(before)?;
            for entry in children {
                count = with_splits(count, &entry.1)?;
            }
            Ok(count)
        }
    }
}

/// The next number.
fn one_more(count: u64) -> Result<u64, NoMemory>
    ensures value { IfOk result (λ next. next ≡ count + 1) }
    ensures room { IfErr result (λ _. 2 ^ 64 ≤ count + 1) }
{
    match count.checked_add(1) {
        Some(next) => Ok(next),
        None => Err(NoMemory),
    }
}
