//! Real files, to be read.

ghost use Rattle.std.specs.Prelude.{◌≡◌, [], Some};

use crate::failures::{stop_of, unopened};
use crate::retries::read_once;
use files_door::{Files, Stop};
use map_base::{Progress, Stage};
use std::alloc::Global;
use std::fs::File;
use std::rt;
use std::sync::Arc;
use std::sync::atomic::{AtomicBool, Ordering};

/// The files of the disk. Nothing is told of what they hold. The count rises at each error of the system
/// that is answered as a failure. A file is closed where its end is read, so that no output finds it open.
#[derive(Drop)]
pub struct DiskFiles<R: rt::Files> {
    rt: R,
    begun: Option<R::File>,
    failures: u64,
    watched: Option<Arc<Progress, Global>>,
    is_telling: AtomicBool,
}

impl<R: rt::Files> DiskFiles<R> {
    /// The files that `rt` reaches; none is begun, and the count is 0.
    pub fn new(rt: R) -> DiskFiles<R>
        ensures none_begun { ⟦<DiskFiles<R> as Files>⟧.rest result ≡ Some [] }
        ensures count { ⟦<DiskFiles<R> as Files>⟧.faults result ≡ 0 }
    {
        DiskFiles::watched(rt, None)
    }

    /// The files that `rt` reaches; none is begun, and the count is 0. Where somebody watches the run, each read tells how
    /// far it is, and where a run does not tell what it is at, that it reads, from the beginning of each file to its end.
    pub fn watched(rt: R, watched: Option<Arc<Progress, Global>>) -> DiskFiles<R>
        ensures none_begun { ⟦<DiskFiles<R> as Files>⟧.rest result ≡ Some [] }
        ensures count { ⟦<DiskFiles<R> as Files>⟧.faults result ≡ 0 }
    {
        DiskFiles {
            rt,
            begun: None,
            failures: 0,
            watched,
            is_telling: AtomicBool::new(false),
        }
    }

    /// Tells how far the run is, if somebody watches it.
    fn tell(&self) {
        if let Some(progress) = &self.watched {
            progress.look();
        }
    }

    /// Tells that a file is read, unless the run told what it is at.
    fn tell_begun(&self) {
        if let Some(progress) = &self.watched {
            if let Stage::Working = progress.stage() {
                self.is_telling.store(true, Ordering::Relaxed);
                progress.enter(Stage::Reading);
            }
        }
    }

    /// Tells that the run works again where a read took nothing: the file is at its end.
    fn tell_taken(&self, count: usize) {
        if let Some(progress) = &self.watched {
            if count == 0 && self.is_telling.swap(false, Ordering::Relaxed) {
                progress.enter(Stage::Working);
            }
        }
    }
}

impl<R: rt::Files> Files for DiskFiles<R> {
    ghost use Rattle.std.specs.Prelude.{None, Some, [], if◌then◌else◌, is_none};

    ghost told = { λ files. None };

    ghost rest = { λ files. if is_none files.begun then Some [] else None };

    ghost faults = { λ files. files.failures };

    fn begin(&mut self, path: &str) -> Result<bool, Stop> {
        self.begun = None;
        match File::open(&self.rt, path) {
            Ok(file) => {
                self.begun = Some(file);
                self.tell_begun();
                Ok(true)
            }
            Err(error) => unopened(&mut self.failures, &error),
        }
    }

    fn read(&mut self, into: &mut [u8]) -> Result<usize, Stop> {
        self.tell();
        let Some(file) = &mut self.begun else {
            return Ok(0);
        };
        match read_once(file, into) {
            Ok(count) => {
                self.tell_taken(count);
                if count == 0 && !into.is_empty() {
                    self.begun = None;
                }
                Ok(count)
            }
            Err(error) => {
                self.begun = None;
                Err(stop_of(&mut self.failures, &error))
            }
        }
    }
}
