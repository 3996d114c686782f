//! How a poster is laid out: its pitch, the names that are printed at it, and where the legend stands, exactly as the plan's
//! rules say. Names look for their places in a table of cells, in a time that grows with their number and not its square.
#![tactic(auto)]

mod extent;
mod fitting;
mod laying;
mod legend;
mod room;
mod roomy;

pub use extent::frame_with;
pub use fitting::{Layout, layout_of};
pub use legend::{frame_beside, legend_of, row_at};
