//! Keeps commands from writing over what they read: `clash_of` tells, before anything is read, which output of a
//! command is one file with an input, or with another output, whatever their spelling and links.
#![tactic(auto)]

mod clash;
mod outputs;

pub use clash::{Clash, clash_of};
pub use outputs::{Outputs, outputs_of};
