//! The net of points on which lines are bundled: stations and samples of all tracks, thinned, and edges between
//! near ones. A `Net` is planar and joins each two stations that a run of samples leads between, as the contract
//! of `net_of` says.
#![tactic(auto)]

mod buckets;
mod building;
mod cells;
mod edges;
mod nearest;
mod nearness;
mod net;
mod point_cells;
mod thinning;

pub use buckets::Buckets;
pub use building::net_of;
pub use map_base::LimitFault as NetFault;
pub use net::Net;
pub use point_cells::PointCells;
