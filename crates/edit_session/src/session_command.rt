//! The command `session`.

ghost use Rattle.std.specs.Prelude.{◌≡◌, ◌≤◌, IfOk};
ghost use Rattle.files_door.specs.Fault.{HasCause, Rose};
ghost use Rattle.command_run.specs.Delivered.{outputs_acts};
ghost use Rattle.command_run.specs.Pieces.{DoesUpTo};
ghost use Rattle.edit_session.specs.Sessions.{begun};
ghost use Rattle.command_inputs.specs.Inputs.{input_at, inputs_by};
ghost use Rattle.run_status.specs.Following.{Follows};
ghost use Rattle.edit_session.specs.SessionWorks.{played_by, script_work};
ghost use Rattle.edit_session.specs.Playing.{Plays};
ghost use Rattle.edit_session.specs.Promises.{IsScript, KeepDraws, SearchDraws, TakesSessionSteps};

use crate::following::follow_script;
use crate::session::Session;
use crate::stop::ScriptStop;
use command_inputs::{Inputs, Loaded, load, read_file};
use files_door::{Files, Sinks, Stop, Target};
use map_base::{Stage, Steps, Text};
use run_status::{Input, Refusal};
use std::alloc::Global;
use std::sync::ledger::Ledger;

/// Follows a command's script over its feed, writes each draw to the file `out` as it is made, and answers the number, from 1,
/// of the first line that is neither a draw nor an edit that may come there, if there is one. The whole script is read
/// before `out` is begun, and that before its first line is followed. Where the script is not there, that is as a bad line 0,
/// and nothing is begun. `steps` counts the branch nodes of searches for line orders.
#[inline(never)]
pub fn play_script<F: Files, S: Sinks, L: Ledger>(
    alloc: Global,
    inputs: &Inputs<'_>,
    out: &str,
    files: &mut F,
    sinks: &mut S,
    steps: &mut Steps<L>,
) -> Result<Option<u64>, ScriptStop>
    ensures plays { Plays (F.told files.old) (inputs_by inputs.now) out.now
        (Rose (F.faults files.old) (F.faults files.new))
        (Rose (S.faults sinks.old) (S.faults sinks.new))
        (S.written sinks.old) (S.written sinks.new) result }
    ensures later { S.faults sinks.old ≤ S.faults sinks.new }
    ensures steps { TakesSessionSteps (F.told files.old) (inputs_by inputs.now) steps.old steps.new }
{
    steps.enter(Stage::Reading);
    let loaded = load(alloc, inputs, files)?;
    let script = read_script(alloc, inputs, files)?;
    Ok(play(alloc, loaded, script.as_slice(), out, sinks, steps)?)
}

/// The script of a command, which has to be there.
fn read_script<F: Files>(
    alloc: Global,
    inputs: &Inputs<'_>,
    files: &mut F,
) -> Result<Vec<u8>, Refusal>
    ensures follows { Follows (F.told files.old) (input_at (inputs_by inputs.now))
        (Rose (F.faults files.old) (F.faults files.new)) (λ v. v.items) script_work result }
    ensures lies { IfOk result (λ v. IsScript (F.told files.old) (inputs_by inputs.now) v.items) }
    ensures later { F.faults files.old ≤ F.faults files.new }
{
    match read_file(alloc, inputs, Input::Script, files)? {
        Some(script) => Ok(script),
        None => Err(Refusal::BadEdit { line: 0 }),
    }
}

/// Begins the output, and follows a script.
fn play<S: Sinks, L: Ledger>(
    alloc: Global,
    loaded: Loaded,
    script: &[u8],
    out: &str,
    sinks: &mut S,
    steps: &mut Steps<L>,
) -> Result<Option<u64>, Stop>
    ensures written { DoesUpTo (outputs_acts (played_by out.now loaded script.now).outputs) (S.written sinks.old) (S.written sinks.new) result }
    ensures bad { IfOk result (λ bad. bad ≡ (played_by out.now loaded script.now).bad) }
    ensures kept { IfOk result (λ _. KeepDraws loaded script.now) }
    ensures cause { HasCause (S.faults sinks.old) (S.faults sinks.new) result }
    ensures steps { SearchDraws loaded script.now steps.old steps.new }
{
    let to = Target::Path(Text::of(alloc, out)?);
    sinks.begin(&to)?;
    let mut session = begin(alloc, loaded);
    follow_script(alloc, &mut session, script, sinks, steps)
}

/// A session of what is loaded.
fn begin(alloc: Global, loaded: Loaded) -> Session
    ensures { result ≡ begun loaded.tables loaded.settings loaded.method }
{
    let Loaded {
        settings,
        method,
        tables,
    } = loaded;
    Session::begin(alloc, tables, settings, method)
}
