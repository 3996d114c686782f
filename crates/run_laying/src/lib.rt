//! Definitions of local search on drawings: runs of segments that are laid anew by the least free walk between their ends,
//! attempts that move nodes and lay runs, and passes over attempts.
#![tactic(auto)]

mod laws;

pub use laws::attempts_keep_drawings_legal;
