//! What the program octimap does: `run` reads the words of a command, does its work over any files and sinks, and ends with
//! a status. Its clauses and the laws beside it say which status and which bytes come of words and files, and what a map
//! that was written, or found right, promises.
#![tactic(auto)]

mod answer;
mod laws;
mod running;

pub use answer::{Answer, Reply};
pub use laws::{
    a_fault_of_writing_leaves_a_beginning, check_says_yes_to_what_improve_wrote,
    check_says_yes_to_what_make_wrote, other_statuses_leave_whole_outputs,
    told_files_decide_the_answer, want_of_memory_leaves_two_beginnings, what_is_defined_is_done,
};
pub use running::run;
