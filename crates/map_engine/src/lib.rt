//! The map of a feed and its certificate, and the check of both.
//!
//! `make` builds the feed's line graph, and makes the map of it by the names of the feed's stations and lines and by
//! how much each line counts (`make_from` of graph_maps). `check` says yes only where the drawing is legal, no line
//! orders cost less than it proves and the map is the picture that is due, whoever made them; else it names the first
//! item that is refused. `Kept` holds what was found of the parts of a problem from one map to the next, so that none
//! is searched twice, and `LastDrawing` the line graph and the drawing that were made last; neither changes a byte.
#![tactic(auto)]

mod checking;
mod importance;
mod laws;
mod making;
mod names;
mod pictures;

pub use checking::{check, check_certificate, check_on_graph};
pub use graph_maps::{Checked, ImprovedMap, Improvement, Made, Proved, first_difference};
pub use importance::importance_of;
pub use kept_drawing::LastDrawing;
pub use kept_trees::Kept;
pub use laws::{
    a_map_is_made_where_each_part_is_solvable, maps_are_made_of_the_line_graph,
    moves_follow_routes_or_come_later, what_is_made_has_its_poster,
    what_was_made_is_not_searched_again,
};
pub use making::{make, make_again, make_improved, make_on_graph};
pub use map_faults::{CheckFault, CheckItem, MakeFault};
pub use names::names_of;
pub use pictures::{geo_on_graph, labels_on_graph, poster_on_graph};
