//! What stands at a node of a tree.

ghost use Rattle.std.specs.Prelude.{◌≡◌, ◌++◌, ◌∷◌, [], ◌<◌, ◌-◌, length, take, All, IfOk, slice_set};
ghost use Rattle.dual_check.specs.declared.asked.Asked.{Asked};
ghost use Rattle.dual_check.specs.declared.node.KnownShare.TheVariants.{Unknown};
ghost use Rattle.dual_check.specs.Asking.{IsAsked};
ghost use Rattle.dual_check.specs.Settling.{IsPairOn};
ghost use Rattle.dual_check.specs.Nodes.{IsSo, IsNode, ArePrices, AreAsBefore, share_at, Forgets, IsForgotten, IsTermForgotten, ArePricedOff};

use crate::asked::Asked;
use dual_bound::SettledPair;
use dual_shares::place_in_part;
use map_base::{NoMemory, SegId};
use order_model::ends_of;
use std::alloc::Global;

/// What is known of the least share of a segment.
#[derive(Clone, Copy, Debug)]
pub(crate) enum KnownShare {
    /// Nothing yet.
    Unknown,
    /// No order keeps the settled pairs.
    NoOrder,
    /// It is this one.
    Least(i64),
}

/// The settled pairs of a node, and what is known under the prices of the last stop before it.
#[derive(Drop)]
pub(crate) struct Node {
    /// The pairs that are settled, those of the root first.
    pub(crate) settled: Vec<SettledPair>,
    /// The prices of the last stop.
    pub(crate) prices: Vec<(u32, i64)>,
    /// For each segment of the part what is known of its least share under these prices, where these pairs are settled.
    pub(crate) shares: Vec<KnownShare>,
}

impl Node {
    /// The root of a tree of a part of so many segments.
    pub(crate) fn root(alloc: Global, count: usize) -> Result<Node, NoMemory>
        ensures settled { IfOk result (λ node. node.settled.items ≡ []) }
        ensures node { (asked : Asked) → length asked.part.now ≡ count → IfOk result (IsNode asked) }
    {
        let shares = vec![in alloc; KnownShare::Unknown; count]?;
        Ok(Node {
            settled: Vec::new(alloc),
            prices: Vec::new(alloc),
            shares,
        })
    }

    /// One pair more is settled.
    pub(crate) fn settle(&mut self, asked: &Asked, pair: SettledPair) -> Result<(), NoMemory>
        requires asked { IsAsked asked.now }
        requires node { IsNode asked.now self.old }
        requires pair { IsPairOn asked.now.problem.now.segs pair }
        ensures settled { IfOk result (λ _. self.new.settled.items ≡ self.old.settled.items ++ pair ∷ []) }
        ensures node { IfOk result (λ _. IsNode asked.now self.new) }
    {
        forget(asked, pair.seg, self.shares.as_mut_slice());
        self.settled.push(pair)?;
        Ok(())
    }

    /// The last pair is settled no more.
    pub(crate) fn take_back(&mut self, asked: &Asked)
        requires asked { IsAsked asked.now }
        requires node { IsNode asked.now self.old }
        ensures settled { self.new.settled.items ≡ take (length self.old.settled.items - 1) self.old.settled.items }
        ensures node { IsNode asked.now self.new }
    {
        if let Some(pair) = self.settled.pop() {
            forget(asked, pair.seg, self.shares.as_mut_slice());
        }
    }

    /// These are the prices now.
    pub(crate) fn take_prices(
        &mut self,
        asked: &Asked,
        prices: &[(u32, i64)],
    ) -> Result<(), NoMemory>
        requires asked { IsAsked asked.now }
        requires node { IsNode asked.now self.old }
        requires prices { ArePrices asked.now prices.now }
        ensures prices { IfOk result (λ _. self.new.prices.items ≡ prices.now) }
        ensures settled { self.new.settled.items ≡ self.old.settled.items }
        ensures node { IfOk result (λ _. IsNode asked.now self.new) }
    {
        forget_priced(asked, self.prices.as_slice(), self.shares.as_mut_slice());
        forget_priced(asked, prices, self.shares.as_mut_slice());
        self.prices.clear();
        self.prices.extend_from_slice(prices)?;
        Ok(())
    }

    /// The least share of a segment of the part is known.
    pub(crate) fn keep(&mut self, asked: &Asked, k: usize, share: Option<i64>)
        requires asked { IsAsked asked.now }
        requires node { IsNode asked.now self.old }
        requires known { k < length asked.now.part.now }
        requires share { share ≡ share_at asked.now self.old.settled.items self.old.prices.items k }
        ensures same { AreAsBefore self.old self.new }
        ensures node { IsNode asked.now self.new }
    {
        self.shares[k] = known_share(share);
    }
}

/// A share that was found, if there is one.
fn known_share(share: Option<i64>) -> KnownShare
    ensures { IsSo result share }
{
    match share {
        None => KnownShare::NoOrder,
        Some(share) => KnownShare::Least(share),
    }
}

/// Nothing is known any more of segments on which one of these prices is.
fn forget_priced(asked: &Asked, prices: &[(u32, i64)], shares: &mut [KnownShare])
    requires asked { IsAsked asked.now }
    requires prices { ArePrices asked.now prices.now }
    requires each { length shares.old ≡ length asked.now.part.now }
    ensures fewer { Forgets shares.old shares.new }
    ensures off { ArePricedOff asked.now prices.now shares.new }
{
    for price in prices {
        forget_term(asked, price.0, shares);
    }
}

/// Nothing is known any more of the segments of the term of this number.
fn forget_term(asked: &Asked, n: u32, shares: &mut [KnownShare])
    requires asked { IsAsked asked.now }
    requires known { n < length asked.now.problem.now.terms }
    requires each { length shares.old ≡ length asked.now.part.now }
    ensures fewer { Forgets shares.old shares.new }
    ensures off { IsTermForgotten asked.now n shares.new }
{
    let (seg, other) = ends_of(asked.problem.terms()[n as usize]);
    forget(asked, seg, shares);
    forget(asked, other, shares);
}

/// Nothing is known any more of a segment.
fn forget(asked: &Asked, s: SegId, shares: &mut [KnownShare])
    requires asked { IsAsked asked.now }
    requires each { length shares.old ≡ length asked.now.part.now }
    ensures fewer { Forgets shares.old shares.new }
    ensures forgotten { IsForgotten asked.now.part.now s shares.new }
{
    let Some(k) = place_in_part(asked.part, s) else {
        return;
    };
    forget_at(shares, k);
}

/// Nothing is known any more of the segment at a place.
fn forget_at(shares: &mut [KnownShare], k: usize)
    requires { k < length shares.old }
    ensures { shares.new ≡ slice_set shares.old k Unknown }
{
    shares[k] = KnownShare::Unknown;
}
