//! What is kept from problem to problem.

ghost use Rattle.std.specs.Prelude.{◌≡◌, ◌+◌, ◌<◌, ◌≤◌, true, false, [], ◌∷◌, ◌++◌, length, All};
ghost use Rattle.std.specs.Prelude.{IfSome, IfOk, IfErr, OnOk, OnErr, MatchOption};
ghost use Rattle.map_base.specs.declared.ids.SegId.{SegId as Seg};
ghost use Rattle.order_model.specs.Parts.{IsRisingPart};
ghost use Rattle.order_model.specs.PartTerms.{part_numbers};
ghost use Rattle.kept_trees.specs.Keeping.{is_held, IsServed, IsMissing, with_part, branches_to_meet};
ghost use Rattle.kept_trees.specs.OwnTrees.{held_as, held_by, part_of_key, IsOwnResult};
ghost use Rattle.kept_trees.specs.Results.{own_outcome, part_outcome, IsResult, IsFaultOf};

use crate::found_in::found_in;
use crate::found_part::FoundPart;
use crate::own_search::search_by_itself;
use crate::part_key::{PartKey, part_key};
use crate::plan::SearchPlan;
use indexmap::IndexMap;
use map_base::{NoMemory, SegId, Steps};
use map_method::Claim;
use order_model::Problem;
use order_search::SearchFault;
use std::alloc::Global;
use std::marker::Model;
use std::sync::ledger::Ledger;

/// What was found of parts, each part by itself: seen as the list of the parts that it holds, each with how it was
/// searched. What is held is what that search finds, so it changes nothing of what is found, and a part that was
/// searched in one way is searched again in the other. What a complete search found serves every budget that allows its
/// branch nodes; what another found serves the budget with which it was made.
#[derive(Drop)]
pub struct Kept {
    trees: IndexMap<PartKey, FoundPart>,
}

impl Model for Kept {
    ghost use Rattle.std.specs.Prelude.{List};
    ghost use Rattle.kept_trees.specs.OwnTrees.{HeldPart, parts_held, AreOwnResults};

    ghost Value = { List HeldPart };

    ghost view = { λ k. parts_held k.trees.entries };

    ghost invariant = { λ k. AreOwnResults k.trees.entries };
}

impl Kept {
    /// Holds no part.
    pub fn none(alloc: Global) -> Kept
        ensures { result ≡ [] }
    {
        Kept {
            trees: IndexMap::new(alloc),
        }
    }

    /// Orders of a part, and the tree that shows what none of its orders cost less than: those that cost least, as the
    /// live search or the search by dual prices finds them; or, where a bound is claimed and dual prices do not come to
    /// the end within the budget, good ones with the bound of their root. A part of which all this is held is not
    /// searched, and takes no step of the counter. Afterwards it is held; what is held stays, and after a refusal
    /// nothing is added.
    pub fn solve_part<L: Ledger>(
        &mut self,
        alloc: Global,
        problem: &Problem,
        part: &[SegId],
        numbers: &[u32],
        plan: SearchPlan,
        steps: &mut Steps<L>,
    ) -> Result<FoundPart, SearchFault>
        requires known { All (λ (s : Seg). s.0 < length problem.now.segs) part.now }
        requires rising { IsRisingPart part.now }
        requires numbers { numbers.now ≡ part_numbers problem.now.terms part.now }
        requires budget { plan.budget ≤ 100000 }
        ensures found { IfOk result (IsResult plan problem.now part.now) }
        ensures fault { IfErr result (IsFaultOf (part_outcome plan problem.now part.now)) }
        ensures held { OnOk result (self.new ≡ with_part self.old (held_as plan problem.now part.now)) }
        ensures refused { OnErr result (self.new ≡ self.old) }
        ensures steps { OnOk result (steps.new ≡ steps.old + branches_to_meet self.old plan problem.now part.now) }
        ensures few_steps { steps.new ≤ steps.old + branches_to_meet self.old plan problem.now part.now }
    {
        let mut key = part_key(alloc, problem, part, numbers, plan.search)?;
        if let Some(own) = self.complete_result(&key, plan)? {
            return Ok(found_in(alloc, part, numbers, own)?);
        }
        key.spent = Some(plan.budget);
        if let Some(own) = self.bound_result(&key, plan) {
            return Ok(found_in(alloc, part, numbers, own)?);
        }
        let own = search_by_itself(alloc, &key, plan, steps)?;
        let found = found_in(alloc, part, numbers, &own)?;
        key.spent = own.spent_in(plan.budget);
        self.add(key, own)?;
        Ok(found)
    }

    /// What a complete search found for a part by itself, if it is held and the budget allows its branch nodes. Where
    /// the budget does not, the search is spent, and is refused unless it leaves a bound.
    fn complete_result(
        &self,
        key: &PartKey,
        plan: SearchPlan,
    ) -> Result<Option<&FoundPart>, SearchFault>
        requires how { key.now.how ≡ plan.search }
        requires complete { key.now.spent ≡ None }
        requires budget { plan.budget ≤ 100000 }
        ensures found { IfOk result (λ o. IfSome o (λ own. IsServed self.now plan (part_of_key key.now) own.now)) }
        ensures absent { IfOk result (λ o. o ≡ None → IsMissing self.now plan (held_by key.now)) }
        ensures refused { IfErr result (λ e. own_outcome plan (part_of_key key.now) ≡ Err e) }
    {
        let Some(own) = self.result_of(key) else {
            return Ok(None);
        };
        if own.branches <= plan.budget {
            return Ok(Some(own));
        }
        if own.leaves_bound(plan.claim) {
            return Ok(None);
        }
        Err(SearchFault::Spent {
            branches: plan.budget + 1,
        })
    }

    /// What a search that was spent within the plan's budget found for a part by itself, if it is held and a bound is
    /// claimed.
    fn bound_result(&self, key: &PartKey, plan: SearchPlan) -> Option<&FoundPart>
        requires how { key.now.how ≡ plan.search }
        requires budget { key.now.spent ≡ Some plan.budget }
        ensures found { IfSome result (λ own. IsServed self.now plan (part_of_key key.now) own.now) }
        ensures absent { result ≡ None → IsMissing self.now plan (held_by key.now) }
    {
        match plan.claim {
            Claim::Best => None,
            Claim::Bound => self.result_of(key),
        }
    }

    /// What was found for a part by itself, if it is held.
    fn result_of(&self, key: &PartKey) -> Option<&FoundPart>
        ensures { MatchOption result (is_held self.now (held_by key.now) ≡ false)
            (λ own. (is_held self.now (held_by key.now) ≡ true) × IsOwnResult (held_by key.now) own.now) }
    {
        self.trees.get(key)
    }

    /// Holds a part that is not held yet.
    fn add(&mut self, key: PartKey, own: FoundPart) -> Result<(), NoMemory>
        requires absent { is_held self.old (held_by key) ≡ false }
        requires own { IsOwnResult (held_by key) own }
        ensures held { OnOk result (self.new ≡ self.old ++ held_by key ∷ []) }
        ensures refused { OnErr result (self.new ≡ self.old) }
    {
        self.trees.insert(key, own)?;
        Ok(())
    }
}
