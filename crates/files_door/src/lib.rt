//! The outside as two traits: files that are read, and sinks that are written to. A file is read whole, or it is told
//! why not; all bytes are written, or it is told how many. Each fault that is told comes with a count of faults that
//! rose. Files and sinks in memory stand here, those of the disk in disk_door.
#![tactic(auto)]

mod counts;
mod files;
mod memory_files;
mod memory_sinks;
mod reading;
mod sinks;
mod steady_files;
mod steady_sinks;
mod stop;
mod target;
mod writing;

pub use files::Files;
pub use memory_files::MemoryFiles;
pub use memory_sinks::MemorySinks;
pub use reading::{DoorFault, read_all};
pub use sinks::Sinks;
pub use steady_files::SteadyFiles;
pub use steady_sinks::SteadySinks;
pub use stop::Stop;
pub use target::Target;
pub use writing::{WriteStop, write_all};
