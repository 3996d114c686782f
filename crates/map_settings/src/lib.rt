//! The settings file, in TOML: which settings it makes, and why it is refused. A file is read exactly by its
//! definition: one that is no TOML is refused as such, one with bad keys by the least of them, and every other
//! file makes the settings that its keys say, those of missing keys being the ones of the command that the key `method`
//! names, or else of the command that reads it.
//!
//! A key of the file is one row: a value of it (`values`), what it changes in the settings (`entries`), and the
//! two definitions that these compute.
#![tactic(auto)]

mod entries;
mod fault;
mod reading;
mod values;

pub use fault::{SettingsFault, SettingsWhy};
pub use reading::{set_settings, settings_over};
