//! Certificates as text, both ways: each certificate in range has one text, which is read again, and a text that is no
//! certificate's is refused at the first line that has not the form due there.
#![tactic(auto)]

mod body;
mod certificate;
mod counts;
mod distinct;
mod forms;
mod laws;
mod reading;
mod run_words;
mod walk_line;
mod whole;
mod writing;

pub use certificate::Certificate;
pub use laws::{
    every_certificate_has_one_spelling, no_certificate_where_reading_stops, what_is_written_is_read,
};
pub use whole::read_certificate;
pub use writing::write_certificate;
