//! How many prefixes a part has, as a law of its definition. Nothing here runs.
#![tactic(auto)]

mod counts;

pub use counts::incomplete_prefixes_are_counted;
