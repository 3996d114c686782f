//! The commands `labels`, `geo` and `poster`: pictures of a feed by a certificate that is checked. The first shows the
//! certificate's map with the names of stations at free places, the second its line orders along the ways that lines take
//! on the ground, the third a map to print.
#![tactic(auto)]

mod pictures;

pub use pictures::draw_picture;
