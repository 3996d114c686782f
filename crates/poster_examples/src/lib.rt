//! Worked examples of the definitions that posters stand on. Each is proved by computing what the definition gives.
//! Nothing runs here, and nothing stands on this crate.
#![tactic(auto)]
