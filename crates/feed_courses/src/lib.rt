//! The courses of a feed's patterns: the stations that they use, where these lie on the plane, and for each pattern
//! its hops from station to station.
#![tactic(auto)]

mod apart;
mod building;
mod counts;
mod courses;
mod flags;
mod hops;
mod plane;
mod shown;
mod used;

pub use building::courses_of;
pub use courses::{Course, Courses};
pub use map_base::LimitFault as CourseFault;
