//! Known costs of points.

ghost use Rattle.std.specs.Prelude.{◌≡◌, ◌<◌, Some, None, IfOk, OnOk, length, replicate};
ghost use Rattle.net_paths.specs.Searching.{known_at, with_known};

use map_base::NoMemory;
use std::alloc::Global;
use std::collections::HashMap;
use std::marker::Model;

/// For how many costs there is room at first. Most searches need no more.
const ROOM: usize = 56;

/// The costs of so many points, as far as they are known, seen as the list of them. Only known ones take memory.
#[derive(Drop)]
pub(crate) struct Known {
    costs: HashMap<u32, u128>,
    count: usize,
}

impl Model for Known {
    ghost use Rattle.std.specs.Prelude.{ℕ, List, Option};
    ghost use Rattle.net_paths.specs.Searching.{costs_below};

    ghost Value = { List (Option ℕ) };

    ghost view = { λ k. costs_below k.costs k.count };
}

impl Known {
    /// No known cost, of so many points, with room for those of a short stretch.
    pub(crate) fn none(alloc: Global, count: usize) -> Result<Known, NoMemory>
        ensures { IfOk result (λ known. known ≡ replicate count None) }
    {
        let costs = HashMap::with_capacity(alloc, ROOM)?;
        Ok(Known { costs, count })
    }

    /// The known cost of a point.
    pub(crate) fn of(&self, at: u32) -> Option<u128>
        requires { at < length self.now }
        ensures { result ≡ known_at self.now at }
    {
        self.costs.get(&at).copied()
    }

    /// Notes the cost of a point.
    pub(crate) fn note(&mut self, at: u32, cost: u128) -> Result<(), NoMemory>
        requires { at < length self.old }
        ensures { OnOk result (self.new ≡ with_known self.old at cost) }
    {
        self.costs.insert(at, cost)?;
        Ok(())
    }
}
