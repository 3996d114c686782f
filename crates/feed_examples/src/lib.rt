//! Worked examples of the definitions that feeds, settings and edits stand on. Each is proved by computing what the definition gives.
//! Nothing runs here, and nothing stands on this crate.
#![tactic(auto)]
