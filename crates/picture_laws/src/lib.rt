//! What a picture shows, as laws of its definition: each line of each segment has its path, each station its circle and its
//! name, and the text of a picture tells its elements, so that no name can pass for one. Nothing here runs.
#![tactic(auto)]

mod laws;

pub use laws::{
    each_line_of_a_segment_has_its_path, each_station_has_its_circle_and_its_name,
    names_write_no_markup, pages_are_made_of_pictures, text_tells_elements,
};
