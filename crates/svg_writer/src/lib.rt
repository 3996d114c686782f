//! The picture of a drawn line graph as SVG 1.1: each line of each segment as a path beside the segment's course, each
//! connection at a node, and each station with its name. The bytes are exactly those of the picture's definition, a
//! list of elements, for any drawing that tells where lines run and nodes lie, and in any style. What other pictures have in
//! common with it is lent: how texts, numbers, colours and paths are written, and what there is of each thing.
#![tactic(auto)]

mod bounds;
mod drawable;
mod elements;
mod escaping;
mod grid;
mod lines;
mod names;
mod pieces;
mod scene;
mod stations;
mod style;
mod walked;
mod whole;

pub use bounds::Bounds;
pub use drawable::Drawn;
pub use escaping::{escape, push_escaped};
pub use grid::{GridDrawing, centre_of, drawn, first_of, put_at};
pub use lines::{are_one, gauge, place_in};
pub use names::Names;
pub use pieces::{
    push_colour, push_corner, push_ids, push_integer, push_natural, push_path, push_place,
    push_title,
};
pub use scene::{colour_of, ends_of, lines_of, name_of, order_of, round_of, station_name};
pub use stations::{most_lines, radius_of};
pub use style::{Style, grid_style};
pub use walked::{bounds_of, with_corner};
pub use whole::{picture, picture_of, picture_with};
