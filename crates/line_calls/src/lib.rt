//! Which lines call at the stations of a line graph: those with a pattern that has the station, of the lines that are
//! shown. A line may pass a station on the way of its trips without a call.
#![tactic(auto)]

mod by_line;
mod calls;
mod lists;
mod table;

pub use calls::node_callers;
