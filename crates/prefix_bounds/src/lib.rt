//! What the completions of one prefix cost at least on a part of a problem: its bound, its canonical prices, and the value
//! of any prices.
//!
//! `bound_of` and `prices_for` build the tables of the part once, and place the prefix's lines there. `value` takes no
//! memory: it says what prices on open Links show, and that they show nothing where one of them is not allowed. No
//! completion costs less than the bound, or than the value; the canonical prices are allowed and reach the bound.
#![tactic(auto)]

mod allowed;
mod bounds;
mod decided;
mod place;
mod price_values;
mod shares;
mod slots;
mod terms;

pub use bounds::{bound_of, prices_for};
pub use price_values::value;
