//! Laws that the ending of a run is read by: what told files decide, and what each target holds then.

ghost use Rattle.std.specs.Prelude.{◌≡◌, ◌≢◌, ◌⊎◌, ◌++◌, ℕ, List, Option, Some, Ok};
ghost use Rattle.files_door.specs.declared.target.Target.{Target};
ghost use Rattle.files_door.specs.Fault.{Rose};
ghost use Rattle.files_door.specs.Targets.{Written, held_by};
ghost use Rattle.command_run.specs.declared.output.Output.{Output};
ghost use Rattle.command_run.specs.Delivered.{no_memory_line};
ghost use Rattle.command_run.specs.Held.{held_after, line_outputs, IsBeginning};
ghost use Rattle.command_run.specs.Work.{outcome};
ghost use Rattle.command_run.specs.Told.{file_of};
ghost use Rattle.map_run.specs.declared.answer.Answer.{Answer};
ghost use Rattle.run_status.specs.declared.input.Input.{Input};
ghost use Rattle.run_status.specs.declared.status.Status.{Status};
ghost use Rattle.run_status.specs.declared.status.Status.TheVariants as status;
ghost use Rattle.command_words.specs.Asked.{Asked, check, improve, make};
ghost use Rattle.command_paths.specs.Paths.{Chosen, MapPaths, NewPaths};
ghost use Rattle.asked_inputs.specs.Inputs.{input_path};
ghost use Rattle.map_commands.specs.MapWorks.{proved_line};
ghost use Rattle.map_run.specs.Answers.{Finished, alone, answer_by, status_at, whole};
ghost use Rattle.run_status.specs.Outputs.{said};
ghost use Rattle.map_run.specs.Commands.{work};
ghost use Rattle.map_run.specs.Ending.{Ends, IsAnswerTo, IsDue, IsLineOf, IsToBeWritten, Reads};
ghost use Rattle.map_run.specs.Headline.{IsImprovedMapWritten, IsMapWritten, LieAsMade, SaysProved, to_check};

/// Over files that are told, the answer that is due to a command is the one that they define; or it names the path of an input
/// that these files lead the command to read, and their count of faults rose.
pub fn told_files_decide_the_answer()
    ensures { (asked : Asked) (files : List (List ℕ × List ℕ)) (before now : ℕ) (answer : Answer)
        → IsDue (Some asked) (Some files) (Rose before now) answer
        → (answer ≡ answer_by (input_path asked) (outcome (work asked) (file_of files (input_path asked))))
        ⊎ ((input : Input) × Rose before now × Reads (Some files) asked input × (answer ≡ alone (status.ReadFault (input_path asked input)))) }
{}

/// A run that ends with the status of its answer leaves in each target what its outputs and the line of the status
/// leave; of the line only a beginning may stand where the sinks' count of faults rose.
pub fn other_statuses_leave_whole_outputs()
    ensures { (asked : Option Asked) (told : Option (List (List ℕ × List ℕ))) (files_before files_now before now : ℕ) (old new : Written) (ended : Status)
        → Ends asked told (Rose files_before files_now) (Rose before now) (Some old) (Some new) ended
        → ended ≢ status.WriteFault → ended ≢ status.NoMemory
        → (answer : Answer) × (line : List ℕ) × (front : List Output) × IsAnswerTo asked told (Rose files_before files_now) answer
        × (ended ≡ answer.status) × IsLineOf ended line × IsBeginning front (line_outputs line) × ((front ≡ line_outputs line) ⊎ Rose before now)
        × ((target : Target) → held_by target new ≡ held_after target (answer.outputs ++ front) (held_by target old)) }
{}

/// A run that ends with a fault of writing leaves in each target what a beginning of its outputs leaves: of all
/// outputs before some one all bytes, of this one a beginning, and no later one is begun.
pub fn a_fault_of_writing_leaves_a_beginning()
    ensures { (asked : Option Asked) (told : Option (List (List ℕ × List ℕ))) (files_before files_now before now : ℕ) (old new : Written)
        → Ends asked told (Rose files_before files_now) (Rose before now) (Some old) (Some new) status.WriteFault
        → (answer : Answer) × (front : List Output) × IsDue asked told (Rose files_before files_now) answer × IsBeginning front answer.outputs
        × ((target : Target) → held_by target new ≡ held_after target front (held_by target old)) }
{}

/// A run that memory ran out for leaves in each target what a beginning of its outputs and of the line of its status
/// leaves, and behind it on standard output a beginning of `no memory`.
pub fn want_of_memory_leaves_two_beginnings()
    ensures { (asked : Option Asked) (told : Option (List (List ℕ × List ℕ))) (files_before files_now before now : ℕ) (old new : Written)
        → Ends asked told (Rose files_before files_now) (Rose before now) (Some old) (Some new) status.NoMemory
        → (outputs : List Output) × (front : List Output) × (last : List Output) × IsToBeWritten asked told (Rose files_before files_now) outputs
        × IsBeginning front outputs × IsBeginning last (line_outputs no_memory_line)
        × ((target : Target) → held_by target new ≡ held_after target (front ++ last) (held_by target old)) }
{}

/// Where told files give a command outputs, and no count of faults rises, the run ends with status 0, and each target
/// holds what these outputs leave in it; or memory ran out. So what is defined is done: a bad row, a limit, a network
/// without a drawing, a search over its budget or a refused item are the only other causes, and each is exact. A script
/// that stops at a bad line leaves its outputs up to there, and behind them the line of status 11.
pub fn what_is_defined_is_done()
    ensures stopped { (asked : Asked) (files : List (List ℕ × List ℕ)) (files_before files_now before now : ℕ) (old new : Written) (ended : Status) (finished : Finished)
        → Ends (Some asked) (Some files) (Rose files_before files_now) (Rose before now) (Some old) (Some new) ended
        → outcome (work asked) (file_of files (input_path asked)) ≡ Ok finished → (Rose files_before files_now → ⊥) → (Rose before now → ⊥)
        → ((ended ≡ status_at finished.bad_line) × ((line : List ℕ) × IsLineOf ended line
        × ((target : Target) → held_by target new ≡ held_after target (finished.outputs ++ line_outputs line) (held_by target old)))) ⊎ (ended ≡ status.NoMemory) }
    ensures whole { (asked : Asked) (files : List (List ℕ × List ℕ)) (files_before files_now before now : ℕ) (old new : Written) (ended : Status) (outputs : List Output)
        → Ends (Some asked) (Some files) (Rose files_before files_now) (Rose before now) (Some old) (Some new) ended
        → outcome (work asked) (file_of files (input_path asked)) ≡ Ok (whole outputs) → (Rose files_before files_now → ⊥) → (Rose before now → ⊥)
        → ((ended ≡ status.Done) × ((target : Target) → held_by target new ≡ held_after target outputs (held_by target old))) ⊎ (ended ≡ status.NoMemory) }
{}

/// The check says yes to what `make` or `map` wrote. After a run of one of them that ended with status 0 let the feed be as it was, and
/// the map and the certificate lie as they were written, neither longer than a file may be. Then `check` comes to what is
/// proved of the map's line orders; and a run of it on which no count of faults rises ends with status 0 and prints this, or
/// memory ran out.
pub fn check_says_yes_to_what_make_wrote()
    ensures defined { (feed : List ℕ) (paths : NewPaths) (chosen : Chosen) (files later : List (List ℕ × List ℕ)) (made : Written)
        → (written : IsMapWritten (Some files) (make feed paths chosen) paths made) → LieAsMade files later feed paths.map chosen made
        → outcome (work (check feed paths.map (to_check chosen))) (file_of later (input_path (check feed paths.map (to_check chosen)))) ≡ Ok (whole (said (proved_line written.is_made.proved))) }
    ensures done { (feed : List ℕ) (paths : NewPaths) (chosen : Chosen) (files later : List (List ℕ × List ℕ)) (made : Written) (files_before files_now before now : ℕ) (old new : Written) (ended : Status)
        → (written : IsMapWritten (Some files) (make feed paths chosen) paths made) → LieAsMade files later feed paths.map chosen made
        → Ends (Some (check feed paths.map (to_check chosen))) (Some later) (Rose files_before files_now) (Rose before now) (Some old) (Some new) ended
        → (Rose files_before files_now → ⊥) → (Rose before now → ⊥)
        → ((ended ≡ status.Done) × SaysProved old new written.is_made.proved) ⊎ (ended ≡ status.NoMemory) }
{}

/// The check says yes to what `improve` wrote, as to what `make` wrote.
pub fn check_says_yes_to_what_improve_wrote()
    ensures defined { (feed : List ℕ) (paths : MapPaths) (moves : ℕ) (chosen : Chosen) (files later : List (List ℕ × List ℕ)) (before made : Written)
        → (written : IsImprovedMapWritten (Some files) (improve feed paths moves chosen) paths moves before made) → LieAsMade files later feed paths chosen made
        → outcome (work (check feed paths (to_check chosen))) (file_of later (input_path (check feed paths (to_check chosen)))) ≡ Ok (whole (said (proved_line written.is_improved.made.proved))) }
    ensures done { (feed : List ℕ) (paths : MapPaths) (moves : ℕ) (chosen : Chosen) (files later : List (List ℕ × List ℕ)) (before made : Written) (files_before files_now faults_before faults_now : ℕ) (old new : Written) (ended : Status)
        → (written : IsImprovedMapWritten (Some files) (improve feed paths moves chosen) paths moves before made) → LieAsMade files later feed paths chosen made
        → Ends (Some (check feed paths (to_check chosen))) (Some later) (Rose files_before files_now) (Rose faults_before faults_now) (Some old) (Some new) ended
        → (Rose files_before files_now → ⊥) → (Rose faults_before faults_now → ⊥)
        → ((ended ≡ status.Done) × SaysProved old new written.is_improved.made.proved) ⊎ (ended ≡ status.NoMemory) }
{}
