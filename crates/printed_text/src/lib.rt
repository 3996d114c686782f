//! How octimap prints points and ids, each text a part of a line.
#![tactic(auto)]

mod printed;

pub use printed::{push_id, push_line, push_number, push_point};
