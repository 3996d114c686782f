//! The command `page`: a map as a page for a browser.
#![tactic(auto)]

mod page_command;

pub use page_command::show_map;
