//! Where the inputs of what the words of a command ask for lie: the paths of its feed, settings, edits and other files.
#![tactic(auto)]

mod inputs;

pub use inputs::{inputs_of, path_for};
