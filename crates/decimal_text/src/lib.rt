//! Texts of lines, of which each is a word and whole numbers, one space before each: how such lines are written and
//! read. Every number has one spelling, a line that is read is written so, and a text that is none is refused at the
//! first line that has not the form due there.
#![tactic(auto)]

mod fault;
mod lines;
mod numbers;
mod refusal;
mod writing;

pub use fault::{BadText, Stop};
pub use lines::{first_line, first_word, front_line, next_word};
pub use numbers::{from_to, natural_within, number_of};
pub use refusal::bad_text;
pub use writing::{end_line, push_integer, push_natural, push_next_integer, push_next_natural};
