//! What a poster shows of a line graph: the plan of its stations and straight pieces, the names that are printed, and
//! which lines end where. All of it is told by the drawing and by the lines that call at each node.
#![tactic(auto)]

mod plans;
mod served;
mod shown;
mod stations;
mod texts;

pub use plans::plan_of;
pub use served::{Served, callers_at, has_line};
pub use shown::{lines_shown, widest};
pub use stations::{ending, is_interchange};
pub use texts::{Texts, printed_at, texts_of};
