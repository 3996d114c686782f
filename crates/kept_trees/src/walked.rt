//! A tree as it is walked, and the tree that comes of it.

ghost use Rattle.std.specs.Prelude.{◌≡◌, ◌^◌, ◌<◌, ◌≤◌, length, IfOk};
ghost use Rattle.order_values.specs.DualTrees.{plain_dual};
ghost use Rattle.dual_ascent.specs.OwnNumbers.{listed};
ghost use Rattle.dual_ascent.specs.DualResults.{collapsed};
ghost use Rattle.kept_trees.specs.Searching.{plain_walked};

use crate::ascent::shows;
use map_base::{LineId, NoMemory, SegId};
use order_values::{DualTree, Prices};
use std::alloc::Global;

/// A tree as it is walked: each fork with the greatest value of its own rounds and the prices that have it.
#[derive(Drop)]
pub(crate) enum WalkedTree {
    Forked {
        value: i64,
        prices: Prices,
        seg: SegId,
        a: LineId,
        b: LineId,
        first: Box<WalkedTree>,
        second: Box<WalkedTree>,
    },
    Stopped {
        prices: Prices,
    },
}

/// The prices that are not 0, each behind its term's number.
pub(crate) fn listed(alloc: Global, prices: &[i64]) -> Result<Prices, NoMemory>
    requires { length prices.now < 2 ^ 32 }
    ensures { IfOk result (λ p. p ≡ listed prices.now) }
{
    let mut list = Vec::new(alloc);
    for k in 0..prices.len() {
        if prices[k] != 0 {
            list.push((k as u32, prices[k]))?;
        }
    }
    Ok(Prices::of(list))
}

/// The tree of a walk that found this least cost: each fork whose own value shows it is a stop.
pub(crate) fn collapsed(alloc: Global, target: u64, tree: WalkedTree) -> Result<DualTree, NoMemory>
    requires { target ≤ 1024000000000 }
    ensures { IfOk result (λ t. plain_dual t ≡ collapsed target (plain_walked tree)) }
{
    match tree {
        WalkedTree::Stopped { prices } => Ok(DualTree::Stop { prices }),
        WalkedTree::Forked {
            value,
            prices,
            seg,
            a,
            b,
            first,
            second,
        } => {
            if shows(target, value) {
                return Ok(DualTree::Stop { prices });
            }
            let first = collapsed(alloc, target, Box::into_inner(first))?;
            let second = collapsed(alloc, target, Box::into_inner(second))?;
            Ok(DualTree::Fork {
                seg,
                a,
                b,
                first: Box::new(alloc, first)?,
                second: Box::new(alloc, second)?,
            })
        }
    }
}
