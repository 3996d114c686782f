//! A map as a page to look at: one HTML file with the picture inside, which works from disk.
#![tactic(auto)]

mod head;
mod page;
mod tail;

pub use page::{is_picture, page_of};
