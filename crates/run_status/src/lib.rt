//! How runs of commands end: why a command came to no result, the status of each such end, its number and its line on
//! standard output. `specs/Following.antt` says what it means that a call does a piece of work.
#![tactic(auto)]

mod graph_why;
mod input;
mod item;
mod line;
mod outputs;
mod refusal;
mod status;

pub use graph_why::GraphWhy;
pub use input::Input;
pub use item::Item;
pub use line::{file_name, line_of};
pub use outputs::say;
pub use refusal::Refusal;
pub use status::Status;
