//! What commands read: where each input lies, a file, the settings, and the tables of a feed by them. Each call does a
//! piece of work that `specs/Loading.antt` defines, as a function of what the inputs give.
#![tactic(auto)]

mod edits;
mod input_file;
mod inputs;
mod loaded;
mod settings;

pub use input_file::read_file;
pub use inputs::{Inputs, path_of};
pub use loaded::{Loaded, load};
pub use settings::settings_for;
