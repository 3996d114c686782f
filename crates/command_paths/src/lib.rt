//! What words give to commands: where a map and its certificate lie, and what a user chose. What a command does
//! with them stands in crates above, and so does how words are read.
#![tactic(auto)]

mod map_files;
mod new_files;
mod options;
mod picture;
mod sets;

pub use map_files::MapFiles;
pub use new_files::NewFiles;
pub use options::Options;
pub use picture::Picture;
pub use sets::next_set;
