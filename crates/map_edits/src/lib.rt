//! Edits of a map: the lines of a script, and what they make of a feed's tables and the settings.
//!
//! `read_edit` reads one line exactly by its grammar. `read_edits` reads a whole script down to the edits that stand
//! at its end, or names its first line that is no edit, names no line or station, or undoes with nothing left.
//! `edited` gives the tables and settings that standing edits make, in their order.
#![tactic(auto)]

mod changed_lines;
mod changed_settings;
mod changed_stations;
mod copies;
mod edit;
mod effects;
mod fault;
mod feed_ids;
mod kind;
mod ranges;
mod reading;
mod script;
mod values;
mod words;

pub use edit::Edit;
pub use effects::edited;
pub use fault::{EditStop, EditsFault};
pub use reading::{ScriptLine, read_edit, read_script_line};
pub use script::{next_line, read_edits, stand};
