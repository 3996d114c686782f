//! From the course of a pattern to its track: samples along the course, the snap of the stations on them, and
//! the hops from each station to the next.
#![tactic(auto)]

mod best_places;
mod nearby;
mod piece;
mod sampler;
mod samples;
mod snapping;
mod sweep;
mod tracking;

pub use map_base::LimitFault as SampleFault;
pub use samples::sample;
pub use snapping::{snap, snap_is_one};
pub use tracking::track;
