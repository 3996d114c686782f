//! The orders that a search by dual prices asks for, segment by segment.
//!
//! Under dual prices each segment answers with its order of least share. Between rounds the orders nearest to the averages
//! are wanted, and where all pairs of lines are settled the orders that are left. From such orders a local search goes on: a
//! segment takes its least order beside those of the others, until none gains. `next_pair` tells the two lines that are
//! settled next. All of it is as `dual_ascent` defines it.
#![tactic(auto)]

mod answers;
mod averaged;
mod beside;
mod closing;
mod incumbent;
mod left;
mod local_search;
mod open_pairs;
mod part;
mod segment_costs;
mod settled;
mod solver;
mod value;

pub use answers::Answers;
pub use averaged::put_averaged;
pub use incumbent::Incumbent;
pub use left::put_left;
pub use local_search::{first_incumbent, offer};
pub use open_pairs::next_pair;
pub use part::{Part, is_in_reach};
pub use solver::Solver;
pub use value::value_of;
