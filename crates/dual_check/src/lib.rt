//! The check of a dual tree: whether it shows that no orders of a part cost less than a target.
//!
//! `check_dual` walks over the tree in the order of its text, with the pairs of lines that are settled on the way, and
//! refuses the first node that does not hold. A stop holds where its prices are allowed and their value, the sum of the
//! least shares of the part's segments, shows the target. The share of a segment is found over sets of its lines, and kept
//! until a price of a term on it, or a pair that is settled there, changes.
#![tactic(auto)]

mod asked;
mod check;
mod load;
mod node;
mod prices;
mod solver;
mod stop;
mod value;
mod walk;

pub use check::check_dual;
pub use stop::DualStop;
