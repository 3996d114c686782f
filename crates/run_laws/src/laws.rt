//! The four ways in which a run of a command ends.

ghost use Rattle.std.specs.Prelude.{ℕ, List, Some};
ghost use Rattle.files_door.specs.Fault.{Rose};
ghost use Rattle.files_door.specs.Targets.{Written};
ghost use Rattle.command_words.specs.Asked.{Asked};
ghost use Rattle.run_status.specs.declared.status.Status.{Status};
ghost use Rattle.map_run.specs.Ending.{Ends};
ghost use Rattle.run_laws.specs.Runs.{IsRunOf};

/// A run of a command over files that tell what they hold ends in one of four ways. The status, its line and what each target
/// holds are those that are defined for the words and the files. Or an input that the command comes to read could not be
/// read, the files' count of faults rose, and the status names its path. Or the sinks' count rose, the status says so, and a
/// beginning of what is due stands in the targets. Or memory ran out, and a beginning of what is due and of `no memory` does.
pub fn a_run_is_what_is_defined()
    ensures { (asked : Asked) (files : List (List ℕ × List ℕ)) (files_before files_now before now : ℕ) (old new : Written)
        (ended : Status)
        → Ends (Some asked) (Some files) (Rose files_before files_now) (Rose before now) (Some old) (Some new) ended
        → IsRunOf asked files (Rose files_before files_now) (Rose before now) old new ended }
{}
