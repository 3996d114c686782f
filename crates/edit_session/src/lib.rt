//! The session of an editor of maps, and the command `session`: a script of edits and draws is followed over a feed.
//!
//! A `Session` has a feed's tables and settings, and the edits that stand on them. `draw` gives the bytes that `make`
//! gives for the edited tables and settings, or its refusal; what is kept from draw to draw saves the search of each
//! part that was finished before. A script ends at its first line that is neither a draw nor an edit that may come
//! there. Each draw is written as soon as it is made, so what stands in the output is at each moment a beginning of the
//! text of all draws.
#![tactic(auto)]

mod drawn;
mod due;
mod following;
mod laws;
mod session;
mod session_command;
mod stop;

pub use laws::a_draw_shows_the_edits_before_it;
pub use session::Session;
pub use session_command::play_script;
pub use stop::ScriptStop;
