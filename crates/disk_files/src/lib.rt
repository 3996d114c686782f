//! The files of the disk and standard output, as the files and sinks that a run works over. A file is written beside
//! its target, and put in its place with all others of the run, or not at all. `DiskLeads` tells which paths lead to
//! one file. A `Stream` is standard output or standard error.
#![tactic(auto)]

mod disk_files;
mod disk_sinks;
mod draft;
mod failures;
mod leads;
mod most_bytes;
mod outputs;
mod paths;
mod placing;
mod retries;
mod streams;

pub use disk_files::DiskFiles;
pub use disk_sinks::{DiskSinks, WriteError};
pub use leads::{DiskLeads, Leads};
pub use streams::Stream;
