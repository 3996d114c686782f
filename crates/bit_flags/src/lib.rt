//! Lists of flags that take one bit each.
#![tactic(auto)]

mod flags;

pub use flags::Flags;
