//! Names as a poster prints them: how wide they are, the word with which most of them begin, and which colours are pale.
#![tactic(auto)]

mod colours;
mod common;
mod widths;
mod words;

pub use colours::{is_faint, is_pale, light};
pub use common::{common_word, rest_of};
pub use widths::text_width;
pub use words::parts;
