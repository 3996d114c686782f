//! Standard output and real files, to be written.

ghost use Rattle.std.specs.Prelude.{◌≡◌, ◌≤◌, None, Some, length, IfOk, IsErr, IsSome};
ghost use Rattle.files_door.specs.Fault.{HasCause, Rose};
ghost use Rattle.files_door.specs.declared.target.Target.TheVariants.{Path};
ghost use Rattle.disk_files.specs.Places.{target_of};

use crate::draft::{Closed, Draft};
use crate::failures::stop_of;
use crate::most_bytes::{is_full, most_bytes};
use crate::outputs::{Output, output_at};
use crate::placing::{place_all, remove_all};
use crate::retries::write_once;
use crate::streams::Stream;
use files_door::{Sinks, Stop, Target};
use map_base::{NoMemory, Progress, Text};
use std::alloc::Global;
use std::fs::OpenFile;
use std::io::{ErrorKind, Write};
use std::sync::Arc;
use std::{io, mem, rt};

/// Where the next bytes go.
#[derive(Drop)]
enum Place<F: Drop> {
    /// Nowhere: no target is begun.
    Nowhere,
    /// To standard output.
    Said,
    /// To a draft beside the file of this path.
    Draft(Text, Draft<F>),
    /// To what this path leads to: a terminal, a pipe, a device, or a file that was given open.
    Straight(Text, F),
}

/// Standard output, and the files of the disk. Nothing is told of what they hold. The count rises at each
/// error of the system that is answered as a failure, and at each write that takes nothing.
///
/// A file of the disk is written beside its target, and stands there from `put_in_place` on; until then, and where
/// that fails, and after `discard`, the target is what it was. Each draft is synced and closed before the next target
/// is begun. Where that fails the draft is lost: no target is begun any more, and nothing is put in place.
#[derive(Drop)]
pub struct DiskSinks<R: rt::Files + Print> {
    rt: R,
    alloc: Global,
    place: Place<R::File>,
    drafts: Vec<Closed>,
    most: u64,
    failures: u64,
    is_lost: bool,
    last_error: Option<io::Error>,
    last_path: Option<Text>,
    watched: Option<Arc<Progress, Global>>,
}

/// An error of the system in writing.
#[derive(Clone, Copy, Debug)]
pub struct WriteError<'a> {
    /// What the system said.
    pub error: io::Error,
    /// The output that could not be written; none where it is standard output, or all of them.
    pub path: Option<&'a str>,
}

impl<R: rt::Files + Print> DiskSinks<R> {
    /// The targets that `rt` reaches; none is current, and the count is 0.
    pub fn new(rt: R, alloc: Global) -> DiskSinks<R>
        ensures nowhere { ⟦<DiskSinks<R> as Sinks>⟧.current result ≡ None }
        ensures count { ⟦<DiskSinks<R> as Sinks>⟧.faults result ≡ 0 }
    {
        DiskSinks::watched(rt, alloc, None)
    }

    /// The targets that `rt` reaches; none is current, and the count is 0. Where somebody watches the run, the line that
    /// tells how far it is leaves the terminal before anything is written that may stand there.
    pub fn watched(rt: R, alloc: Global, watched: Option<Arc<Progress, Global>>) -> DiskSinks<R>
        ensures nowhere { ⟦<DiskSinks<R> as Sinks>⟧.current result ≡ None }
        ensures count { ⟦<DiskSinks<R> as Sinks>⟧.faults result ≡ 0 }
    {
        let most = most_bytes(&rt);
        DiskSinks {
            rt,
            alloc,
            place: Place::Nowhere,
            drafts: Vec::new(alloc),
            most,
            failures: 0,
            is_lost: false,
            last_error: None,
            last_path: None,
            watched,
        }
    }

    /// The last error of the system in writing, if there was one.
    pub fn last_error(&self) -> Option<WriteError<'_>> {
        let error = self.last_error?;
        let path = match &self.last_path {
            Some(path) => Some(path.as_str()),
            None => None,
        };
        Some(WriteError { error, path })
    }

    /// Puts all that was written in its place: each file that was begun is the new one, and its bytes are on the disk.
    /// Where that fails, each is what it was before this run. No target is current then.
    pub fn put_in_place(&mut self) -> Result<(), Stop>
        ensures nowhere { ⟦<DiskSinks<R> as Sinks>⟧.current self.new ≡ None }
        ensures cause { HasCause (⟦<DiskSinks<R> as Sinks>⟧.faults self.old) (⟦<DiskSinks<R> as Sinks>⟧.faults self.new) result }
    {
        match self.settle() {
            Ok(()) => Ok(()),
            Err(error) => Err(self.stopped(error)),
        }
    }

    /// Forgets what was written: each file that was begun is what it was before this run. No target is current then.
    pub fn discard(&mut self)
        ensures nowhere { ⟦<DiskSinks<R> as Sinks>⟧.current self.new ≡ None }
        ensures count { ⟦<DiskSinks<R> as Sinks>⟧.faults self.new ≡ ⟦<DiskSinks<R> as Sinks>⟧.faults self.old }
    {
        if let Place::Draft(_, draft) = mem::replace(&mut self.place, Place::Nowhere) {
            draft.discard(&self.rt);
        }
        remove_all(&self.rt, &self.drafts);
        self.drafts.clear();
    }

    /// Whether a byte was written to a file that is not in its place yet.
    pub fn holds_bytes(&self) -> bool {
        let is_begun = match &self.place {
            Place::Draft(_, draft) => draft.has_bytes(),
            _ => false,
        };
        is_begun || self.drafts.iter().any(|draft| draft.length > 0)
    }

    /// What an error of the system is answered as. It is the last error from now on.
    fn stopped(&mut self, error: io::Error) -> Stop
        ensures place { self.new.place ≡ self.old.place }
        ensures failed { result ≡ Stop.Failed → Rose self.old.failures self.new.failures }
        ensures later { self.old.failures ≤ self.new.failures }
    {
        let stop = stop_of(&mut self.failures, &error);
        self.last_error = Some(error);
        stop
    }

    /// Closes the current target, and puts all drafts in their places.
    fn settle(&mut self) -> io::Result<()>
        ensures nowhere { target_of self.new.place ≡ None }
        ensures count { self.new.failures ≡ self.old.failures }
    {
        let left = self.leave();
        if left.is_ok() {
            self.last_path = None;
        }
        let drafts = mem::replace(&mut self.drafts, Vec::new(self.alloc));
        if let Err(error) = left {
            remove_all(&self.rt, &drafts);
            return Err(error);
        }
        place_all(&self.rt, self.alloc, &drafts)
    }

    /// Closes the current target. No target is current then. Where it can't be closed, or an earlier one could not be,
    /// an output is lost.
    fn leave(&mut self) -> io::Result<()>
        ensures nowhere { target_of self.new.place ≡ None }
        ensures count { self.new.failures ≡ self.old.failures }
    {
        let closed = self.close();
        if self.is_lost && closed.is_ok() {
            return Err(io::Error::from(ErrorKind::Other));
        }
        self.is_lost = closed.is_err();
        closed
    }

    /// Closes the current target, and keeps its draft to be put in place. No target is current then.
    fn close(&mut self) -> io::Result<()>
        ensures nowhere { target_of self.new.place ≡ None }
        ensures count { self.new.failures ≡ self.old.failures }
    {
        match mem::replace(&mut self.place, Place::Nowhere) {
            Place::Draft(_, draft) => {
                let closed = draft.close(&self.rt)?;
                Ok(self.drafts.push(closed)?)
            }
            Place::Straight(_, file) => sync_straight(&file),
            Place::Nowhere | Place::Said => Ok(()),
        }
    }

    /// Begins to write to the file of a path.
    fn open(&mut self, path: &Text) -> io::Result<Place<R::File>>
        ensures place { IfOk result (λ made. target_of made ≡ Some (Path path.now)) }
        ensures nowhere { self.new.place ≡ self.old.place }
        ensures count { self.new.failures ≡ self.old.failures }
    {
        // Room for this draft where it is closed.
        self.drafts.reserve(1)?;
        let kept = copied(self.alloc, path)?;
        self.last_path = Some(copied(self.alloc, path)?);
        match output_at(&self.rt, self.alloc, path.as_str())? {
            Output::Draft(draft) => Ok(Place::Draft(kept, draft)),
            Output::Straight(file) => Ok(Place::Straight(kept, file)),
        }
    }

    /// Makes a target the current one.
    fn turn_to(&mut self, to: &Target) -> io::Result<()>
        ensures current { IfOk result (λ _. target_of self.new.place ≡ Some to.now) }
        ensures refused { IsErr result → target_of self.new.place ≡ None }
        ensures count { self.new.failures ≡ self.old.failures }
    {
        self.leave()?;
        self.last_path = None;
        self.place = match to {
            Target::Said => Place::Said,
            Target::Path(path) => self.open(path)?,
        };
        Ok(())
    }

    /// Writes once to the current target.
    fn append(&mut self, piece: &[u8]) -> io::Result<usize>
        requires { IsSome (target_of self.old.place) }
        ensures bound { IfOk result (λ count. count ≤ length piece.now) }
        ensures current { target_of self.new.place ≡ target_of self.old.place }
        ensures count { self.new.failures ≡ self.old.failures }
    {
        match &mut self.place {
            Place::Nowhere => unreachable!(),
            Place::Said => {
                hide_line(&self.watched);
                let said = io::writer(&self.rt);
                write_once(&mut Stream::output_within(&self.rt, said, self.most), piece)
            }
            Place::Draft(_, draft) => draft.write(piece, self.most),
            Place::Straight(_, file) => {
                hide_line(&self.watched);
                write_straight(file, piece, self.most)
            }
        }
    }
}

/// A path again.
fn copied(alloc: Global, path: &Text) -> io::Result<Text>
    ensures { IfOk result (λ text. text ≡ path.now) }
{
    match Text::of(alloc, path.as_str()) {
        Ok(text) => Ok(text),
        Err(NoMemory) => Err(io::Error::from(ErrorKind::OutOfMemory)),
    }
}

/// Takes the line that tells how far the run is from the terminal, if somebody watches the run.
fn hide_line(watched: &Option<Arc<Progress, Global>>) {
    if let Some(progress) = watched {
        progress.hide();
    }
}

/// Sees to it that the bytes of an open file are on the disk, if it is a file of a disk.
fn sync_straight<F: OpenFile>(file: &F) -> io::Result<()> {
    if file.metadata()?.is_file() {
        file.sync_all()?;
    }
    Ok(())
}

/// Writes once to an open file, unless that is a file of the disk and as long as it may be.
fn write_straight<F: Write + OpenFile>(file: &mut F, piece: &[u8], most: u64) -> io::Result<usize>
    ensures bound { IfOk result (λ count. count ≤ length piece.now) }
{
    if most < u64::MAX && is_full(&file.metadata()?, most) {
        return Err(io::Error::from(ErrorKind::FileTooLarge));
    }
    write_once(file, piece)
}

impl<R: rt::Files + Print> Sinks for DiskSinks<R> {
    ghost written = { λ sinks. None };

    ghost current = { λ sinks. target_of sinks.place };

    ghost faults = { λ sinks. sinks.failures };

    fn begin(&mut self, to: &Target) -> Result<(), Stop> {
        match self.turn_to(to) {
            Ok(()) => Ok(()),
            Err(error) => Err(self.stopped(error)),
        }
    }

    fn write(&mut self, piece: &[u8]) -> Result<usize, Stop> {
        match self.append(piece) {
            Ok(count) => {
                if count == 0 && !piece.is_empty() {
                    self.failures = self.failures.saturating_add(1);
                }
                Ok(count)
            }
            Err(error) => Err(self.stopped(error)),
        }
    }
}
