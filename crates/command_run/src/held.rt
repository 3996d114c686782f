//! What each target holds after outputs are delivered: laws that a delivery is read by.

ghost use Rattle.std.specs.Prelude.{◌≡◌, ℕ, List, Some};
ghost use Rattle.files_door.specs.declared.target.Target.{Target};
ghost use Rattle.files_door.specs.Fault.{Rose};
ghost use Rattle.files_door.specs.Targets.{Written, held_by};
ghost use Rattle.files_door.specs.Acts.{after};
ghost use Rattle.command_run.specs.declared.output.Output.{Output};
ghost use Rattle.command_run.specs.declared.delivery.Ending.{Ending};
ghost use Rattle.command_run.specs.Delivered.{outputs_acts, IsDelivered};
ghost use Rattle.command_run.specs.Held.{held_after, Stands};

/// After the acts of outputs each target holds the bytes of its own outputs, and nothing of the others.
pub fn outputs_reach_their_targets()
    ensures { (outputs : List Output) (target : Target) (written : Written)
        → held_by target (after (outputs_acts outputs) written) ≡ held_after target outputs (held_by target written) }
{}

/// However outputs and a line are delivered, each target holds what some outputs leave: all of them and the line, or
/// a beginning. Of a beginning all outputs before some one are whole, and no later one is begun.
pub fn each_target_holds_what_stands()
    ensures { (outputs : List Output) (line : List ℕ) (before now : ℕ) (old new : Written) (ending : Ending)
        → IsDelivered outputs line (Rose before now) (Some old) (Some new) ending
        → (standing : List Output) × Stands outputs line (Rose before now) ending standing
        × ((target : Target) → held_by target new ≡ held_after target standing (held_by target old)) }
{}
