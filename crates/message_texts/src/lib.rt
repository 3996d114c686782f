//! What messages to a user say, as functions over what was found: which known word was meant, what a path seems to be,
//! which field of a row a reason speaks of and what is due there, what is wrong in a line that is no edit, which
//! stations lie far from all others, what a type of routes says. Nothing here reads a file or prints.
#![tactic(auto)]

mod edit_word;
mod far_off;
mod limit_hints;
mod meant_word;
mod route_type;
mod row_field;
mod seeming;
mod setting_key;
mod shown;
mod trouble;

pub use edit_word::{EDIT_WORDS, EditWord};
pub use far_off::far_stations;
pub use limit_hints::{graph_limit_hint, limit_hint};
pub use meant_word::meant;
pub use route_type::{is_guided, plain_type, vehicle_name};
pub use row_field::{column_of, due_in, id_column, is_column, required_column};
pub use seeming::{Found, Seeming, path_seems};
pub use setting_key::{SETTING_KEYS, SettingKey};
pub use shown::{list_of, plain, plain_up_to, quoted};
pub use trouble::{Trouble, trouble_of};
