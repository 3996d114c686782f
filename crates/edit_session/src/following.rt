//! Following a script.

ghost use Rattle.std.specs.Prelude.{◌≡◌, ◌≤◌, ◌<◌, ◌+◌, ◌^◌, All, IsSome, IfOk, IfErr, OnOk};
ghost use Rattle.files_door.specs.Fault.{HasCause};
ghost use Rattle.files_door.specs.Acts.{puts};
ghost use Rattle.command_run.specs.Pieces.{DoesUpTo};
ghost use Rattle.map_edits.specs.Grammar.{script_line_in};
ghost use Rattle.edit_session.specs.Scripts.{followed_in, draws_in, branches_to_follow};
ghost use Rattle.edit_session.specs.Sessions.{begun, draw_outcome, branches_to_draw};
ghost use Rattle.edit_session.specs.DrawTexts.{draw_text, draws_text};
ghost use Rattle.edit_session.specs.Promises.{KeepsPromise};
ghost use Rattle.edit_session.specs.Stages.{EndsEdit, EndsLine, IsDrawn, branches_at, line_text, read_to, stage_of};

use crate::drawn::text_of_draw;
use crate::session::Session;
use command_run::write_piece;
use files_door::{Sinks, Stop};
use map_base::Steps;
use map_edits::{Edit, EditStop, ScriptLine, next_line, read_script_line};
use std::alloc::Global;
use std::sync::ledger::Ledger;

/// What came of a line of a script.
#[derive(Clone, Copy, Debug, PartialEq, Eq)]
pub(crate) enum LineEnd {
    /// It was followed.
    Followed,
    /// It is neither a draw nor an edit that may come there, and changed nothing.
    Bad,
}

/// Draws the map of a session, and appends what it gave to the current target.
fn draw_next<S: Sinks, L: Ledger>(
    alloc: Global,
    session: &mut Session,
    count: &mut u64,
    sinks: &mut S,
    steps: &mut Steps<L>,
) -> Result<(), Stop>
    requires room { count.old + 1 < 2 ^ 64 }
    requires target { IsSome (S.current sinks.old) }
    ensures drawn { OnOk result (IsDrawn (stage_of session.old count.old) (stage_of session.new count.new)) }
    ensures written { DoesUpTo (puts (S.current sinks.old) (draw_text (count.old + 1) (draw_outcome session.old)))
        (S.written sinks.old) (S.written sinks.new) result }
    ensures current { S.current sinks.new ≡ S.current sinks.old }
    ensures cause { HasCause (S.faults sinks.old) (S.faults sinks.new) result }
    ensures steps { steps.new ≤ steps.old + branches_to_draw session.old }
{
    *count += 1;
    let text = text_of_draw(alloc, session, *count, steps)?;
    write_piece(sinks, text.as_slice())
}

/// Lets an edit of a script stand, or takes one off.
fn edit_next(session: &mut Session, edit: Edit) -> Result<LineEnd, Stop>
    ensures ended { IfOk result (EndsEdit session.old edit session.new) }
    ensures memory { IfErr result (λ stop. stop ≡ Stop.NoMemory) }
{
    match session.edit(edit) {
        Ok(()) => Ok(LineEnd::Followed),
        Err(stop) => unread(stop),
    }
}

/// What comes of a line that is not read, or of an edit that may not come.
fn unread(stop: EditStop) -> Result<LineEnd, Stop>
    ensures { result ≡ read_to stop }
{
    match stop {
        EditStop::BadEdit => Ok(LineEnd::Bad),
        EditStop::NoMemory => Err(Stop::NoMemory),
    }
}

/// Follows a line, and appends what it draws to the current target.
fn follow_line<S: Sinks, L: Ledger>(
    alloc: Global,
    session: &mut Session,
    count: &mut u64,
    line: &[u8],
    sinks: &mut S,
    steps: &mut Steps<L>,
) -> Result<LineEnd, Stop>
    requires room { count.old + 1 < 2 ^ 64 }
    requires target { IsSome (S.current sinks.old) }
    ensures ended { IfOk result (EndsLine (stage_of session.old count.old) (script_line_in line.now) (stage_of session.new count.new)) }
    ensures written { DoesUpTo (puts (S.current sinks.old) (line_text (stage_of session.old count.old) (script_line_in line.now)))
        (S.written sinks.old) (S.written sinks.new) result }
    ensures current { S.current sinks.new ≡ S.current sinks.old }
    ensures cause { HasCause (S.faults sinks.old) (S.faults sinks.new) result }
    ensures steps { steps.new ≤ steps.old + branches_at session.old (script_line_in line.now) }
{
    let read = match read_script_line(alloc, line) {
        Ok(read) => read,
        Err(stop) => return unread(stop),
    };
    match read {
        ScriptLine::Draw => {
            draw_next(alloc, session, count, sinks, steps)?;
            Ok(LineEnd::Followed)
        }
        ScriptLine::Edit(edit) => edit_next(session, edit),
    }
}

/// Follows a script over a session that was just begun, up to its first bad line, whose number it answers, if there is one.
/// The text of each draw goes to the current target as it is made: what stands there is at each moment a beginning of the
/// text of all draws.
pub(crate) fn follow_script<S: Sinks, L: Ledger>(
    alloc: Global,
    session: &mut Session,
    script: &[u8],
    sinks: &mut S,
    steps: &mut Steps<L>,
) -> Result<Option<u64>, Stop>
    requires begun { session.old ≡ begun session.old.feed session.old.choices session.old.method }
    requires target { IsSome (S.current sinks.old) }
    ensures written { DoesUpTo (puts (S.current sinks.old) (draws_text 1 (draws_in session.old.feed session.old.choices session.old.method script.now)))
        (S.written sinks.old) (S.written sinks.new) result }
    ensures bad { IfOk result (λ bad. bad ≡ (followed_in session.old.feed script.now).bad) }
    ensures kept { OnOk result (All (KeepsPromise session.old.feed session.old.choices session.old.method)
        (followed_in session.old.feed script.now).draws) }
    ensures cause { HasCause (S.faults sinks.old) (S.faults sinks.new) result }
    ensures steps { steps.new ≤ steps.old + branches_to_follow session.old.feed session.old.choices session.old.method script.now }
{
    let mut count = 0;
    let mut rest = script;
    let mut done = 0;
    while let Some((line, left)) = next_line(rest) {
        done += 1;
        match follow_line(alloc, session, &mut count, line, sinks, steps)? {
            LineEnd::Followed => {}
            LineEnd::Bad => return Ok(Some(done)),
        }
        rest = left;
    }
    Ok(None)
}
