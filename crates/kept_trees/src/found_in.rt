//! What is found for a part of a problem, by what was found for the part by itself.

ghost use Rattle.std.specs.Prelude.{◌≡◌, IfOk};
ghost use Rattle.order_proof.specs.Plain.{plain_part_tree};
ghost use Rattle.order_proof.specs.Trees.{IsPartTree};
ghost use Rattle.kept_trees.specs.Renumbered.{renumbered_tree};
ghost use Rattle.kept_trees.specs.Results.{result_found, renumbered_result};

use crate::found_part::FoundPart;
use crate::tree_numbers::renumbered_tree;
use map_base::{LineId, NoMemory, SegId, Sequence};
use order_values::Orders;
use std::alloc::Global;

/// What was found for the part by itself, with the numbers that its segments and its terms have in the problem.
pub(crate) fn found_in(
    alloc: Global,
    part: &[SegId],
    numbers: &[u32],
    own: &FoundPart,
) -> Result<FoundPart, NoMemory>
    requires { IsPartTree (renumbered_tree part.now numbers.now (plain_part_tree own.now.tree)) }
    ensures { IfOk result (λ f.
        result_found f ≡ renumbered_result part.now numbers.now (result_found own.now)) }
{
    let tree = renumbered_tree(alloc, &own.tree, part, numbers)?;
    let lists = copied(alloc, own.orders.lists.as_slice())?;
    Ok(FoundPart {
        complete: own.complete,
        orders: Orders {
            lists: Sequence::of(lists),
        },
        target: own.target,
        branches: own.branches,
        tree,
    })
}

/// These lists of lines once more.
fn copied(alloc: Global, lists: &[Sequence<LineId>]) -> Result<Vec<Sequence<LineId>>, NoMemory>
    ensures { IfOk result (λ others. others.items ≡ lists.now) }
{
    let mut others = Vec::with_capacity(alloc, lists.len())?;
    for lines in lists {
        others.push(Sequence::of(Vec::from_slice(alloc, lines.as_slice())?))?;
    }
    Ok(others)
}
