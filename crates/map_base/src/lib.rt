//! What every crate of octimap speaks of: the numbers of things, points of the plane, texts, settings, limits,
//! want of memory, a counter of steps, and how far a run is.
#![tactic(auto)]

mod ids;
mod limit;
mod limit_fault;
mod memory;
mod point;
mod progress;
mod sequence;
mod settings;
mod steps;
mod text;
mod weights;

pub use ids::{LineId, NodeId, SegId, StationId};
pub use limit::{Limit, LimitKind};
pub use limit_fault::LimitFault;
pub use memory::NoMemory;
pub use point::Point;
pub use progress::{Progress, Stage};
pub use sequence::Sequence;
pub use settings::Settings;
pub use steps::Steps;
pub use text::Text;
pub use weights::Weights;
