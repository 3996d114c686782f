//! The words of the command line: which command they ask for, with what it works on, or the text for a user where
//! they ask for none. `clap` reads them, by a definition of the commands that stands in `specs/Program.antt`; what is
//! asked for is a function of the words (`specs/Words.antt`).
#![tactic(auto)]

mod command;
mod fault;
mod help;
mod matches;
mod program;
mod quiet;
mod version;
mod words;

pub use command::Command;
pub use fault::WordsFault;
pub use help::VERSION;
pub use quiet::is_quiet;
pub use version::asks_version;
pub use words::command_of;
