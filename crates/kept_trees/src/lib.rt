//! What was found of parts, by the live search or by dual prices, and is kept from problem to problem.
//!
//! `search` is the search by dual prices: it finds exactly what `dual_ascent` defines. `Kept` holds what either search
//! found of a part by itself, whose segments and terms are numbered from 0; that serves every problem which has the
//! part. Its `solve_part` searches a part only where what is to be known is not held, and what it answers is the same
//! either way.
#![tactic(auto)]

mod ascent;
mod dual_found;
mod dual_search;
mod found_in;
mod found_part;
mod kept;
mod own_search;
mod own_terms;
mod part_key;
mod plan;
mod rounds;
mod tree_numbers;
mod under_way;
mod walk;
mod walked;

pub use dual_found::DualFound;
pub use dual_orders::is_in_reach;
pub use dual_search::search;
pub use found_part::FoundPart;
pub use kept::Kept;
pub use part_key::PartKey;
pub use plan::SearchPlan;
pub use tree_numbers::renumbered;
