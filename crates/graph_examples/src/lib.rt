//! Worked examples of the definitions that line graphs stand on: of feeds, planes, courses, nets and ways, of rounds and of texts.
//! Each is proved by computing what the definition gives. Nothing runs here, and nothing stands on this crate.
#![tactic(auto)]
