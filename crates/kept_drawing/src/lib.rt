//! What was drawn last: a line graph with the courses that it came of, and its walks.
//!
//! Many edits of a map leave its line graph as it is, and its drawing too. So a session keeps both from draw to draw,
//! and takes them again where nothing changed on which they depend: for the line graph the courses, how near points are
//! thinned to, and how many lines there are. What is taken again is what would be made anew.
#![tactic(auto)]

mod kept_graph;
mod last_drawing;
mod same_courses;

pub use kept_graph::KeptGraph;
pub use last_drawing::LastDrawing;
