//! The problem of line orders: what orders of the lines on each segment cost.
//!
//! An order of a segment lists its lines from left to right as seen from its lower end. A problem has the lines of each
//! segment, and the terms that orders may cost: crossings, splits and separations. `cost` sums those that orders have,
//! `parts_of` gives the parts of a problem that can be solved one by one, with their terms by `terms_by_part`, and a
//! `Prefix` holds the lines placed so far.
#![tactic(auto)]

mod costs;
mod labels;
mod part_numbers;
mod part_terms;
mod parts;
mod places;
mod prefix;
mod problem;
mod ranks;
mod segment_prefix;
mod table_costs;
mod term;

pub use costs::{are_neighbours, comes_before, cost, ends_of, is_met_on, weight_of};
pub use part_numbers::numbers_of;
pub use part_terms::terms_by_part;
pub use parts::{a_problem_has_one_list_of_parts, parts_of};
pub use places::NO_PLACE;
pub use prefix::{Prefix, taking_back_undoes_placing};
pub use problem::{Problem, ProblemParts};
pub use table_costs::cost_by_tables;
pub use term::Term;
