//! A run of a command: what it reads by role, what it comes to, and how that is written.
//!
//! A command is a piece of work (`specs/Work.antt`): it reads its inputs one after another, and comes to a result
//! or a refusal. What the inputs and refusals are is left to the program. `deliver` writes outputs and a line, and
//! answers how that ended: whole, cut short by a fault of writing, or out of memory. The laws of `held` say what
//! each target holds then. A command whose output is long begins its target, and hands one piece after another to
//! `write_piece`: what stands there is at each moment a beginning of the whole output.
#![tactic(auto)]

mod delivery;
mod held;
mod output;
mod pieces;

pub use delivery::{Ending, deliver, out_of_memory};
pub use held::{each_target_holds_what_stands, outputs_reach_their_targets};
pub use output::Output;
pub use pieces::write_piece;
