//! What a run of the program is, as laws: the four ways in which it ends, and what `import` comes to behind `export`. Nothing
//! here runs.
#![tactic(auto)]

mod exchange;
mod laws;

pub use exchange::{import_comes_to_what_make_comes_to, import_reads_what_export_wrote};
pub use laws::a_run_is_what_is_defined;
