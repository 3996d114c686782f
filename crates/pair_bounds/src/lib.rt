//! The bound of one pair of lines on the segments of a part, and its canonical prices.
//!
//! `bound_of_pair` gathers the terms of a pair: what they cost where they are decided, what the pair costs on each segment
//! where it is open, and its kept Links, each of which closes no cycle. Their trees are priced from the leaves to the roots,
//! which gives the least that the pair costs; the prices are noted. Both are those of order_bound's definitions, and no
//! memory is taken beyond the `Room` that it is given.
#![tactic(auto)]

mod child_prices;
mod collecting;
mod noted_prices;
mod one_pair;
mod opening;
mod slots;
mod term_look;
mod walking;

pub use noted_prices::NotedPrices;
pub use one_pair::{Room, bound_of_pair};
