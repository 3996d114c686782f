//! The map of a line graph and its certificate, and the check of both.
//!
//! A map is made of a line graph, the names of its stations and lines, and how much each line counts. `make_from` draws
//! the line graph on the grid, finds line orders, with the proof of what none cost less than, and writes the map and a
//! certificate. `checked_certificate` accepts a certificate only where the drawing is legal and no line orders cost
//! less than it proves, whoever made it; else it names the first item that is refused. `Kept` holds what was found of
//! the parts of a problem from one map to the next, and `KeptWalks` the drawing that was made last.
#![tactic(auto)]

mod best_orders;
mod checked;
mod checking;
mod drawing;
mod drawn_lines;
mod improvement;
mod items;
mod labelled;
mod laws;
mod made;
mod making;
mod moving;
mod promises;
mod solution;
mod solving;

pub use checked::{Checked, CheckedMap, Proved};
pub use checking::{check_from, checked_certificate};
pub use improvement::{ImprovedMap, Improvement};
pub use items::first_difference;
pub use kept_trees::Kept;
pub use kept_walks::KeptWalks;
pub use labelled::labels_from;
pub use laws::{
    each_certificate_is_read_from_its_text, each_other_text_is_refused_at_its_first_wrong_line,
    maps_depend_on_three_settings, moves_change_walks_alone, straightening_changes_walks_alone,
};
pub use made::Made;
pub use making::{make_from, make_improved_from};
pub use promises::{a_bound_that_is_attained_is_least, a_solved_drawing_is_accepted};
