//! What is found of a part.

ghost use Rattle.std.specs.Prelude.{◌≡◌};
ghost use Rattle.order_proof.specs.Plain.{plain_part_tree};
ghost use Rattle.kept_trees.specs.Renumbered.{is_by_pairs};

use map_method::Claim;
use order_proof::PartTree;
use order_values::Orders;

/// What is found of a part.
#[derive(Debug, Drop)]
pub struct FoundPart {
    /// Whether the search came to its end, so that no orders of the part cost less than these.
    pub complete: bool,
    /// The orders of the part's segments, in their order.
    pub orders: Orders,
    /// What no orders of the part cost less than, and what these cost where the search is complete.
    pub target: u64,
    /// The branch nodes of the search; the budget, where it is not complete.
    pub branches: u32,
    /// A tree that is accepted at the target.
    pub tree: PartTree,
}

impl FoundPart {
    ghost use Rattle.std.specs.Prelude.{◌≡◌, Ok};
    ghost use Rattle.order_proof.specs.Plain.{plain_part_tree};
    ghost use Rattle.kept_trees.specs.OwnTrees.{spent_in};
    ghost use Rattle.kept_trees.specs.Results.{leaves_bound, result_found};

    /// Whether a search for it that can't come to its end leaves a bound: dual prices do, where a bound is claimed.
    pub(crate) fn leaves_bound(&self, claim: Claim) -> bool
        ensures { result ≡ leaves_bound claim (plain_part_tree self.now.tree) }
    {
        match claim {
            Claim::Best => false,
            Claim::Bound => is_by_pairs(&self.tree),
        }
    }

    /// The budget within which the search was not complete; none where it was.
    pub(crate) fn spent_in(&self, budget: u32) -> Option<u32>
        ensures { result ≡ spent_in budget (Ok (result_found self.now)) }
    {
        if self.complete { None } else { Some(budget) }
    }
}

/// Whether a part's tree is of settled pairs.
fn is_by_pairs(tree: &PartTree) -> bool
    ensures { result ≡ is_by_pairs (plain_part_tree tree.now) }
{
    match tree {
        PartTree::ByCases(_) => false,
        PartTree::ByPairs(_) => true,
    }
}
