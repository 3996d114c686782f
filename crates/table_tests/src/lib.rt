//! Tests of the crates that read tables and settings, and of the trial feed: files and sinks in memory, a whole feed,
//! settings files and a trial. What each table, setting and edit gives is shown in feed_examples. Nothing stands on this
//! crate.
#![tactic(auto)]

#[cfg(test)]
mod feed_tests;
#[cfg(test)]
mod file_tests;
#[cfg(test)]
mod setting_tests;
#[cfg(test)]
mod trial_tests;
