//! Files in memory that fail at listed calls.

ghost use Rattle.std.specs.Prelude.{◌≡◌, ◌↔◌, [], IfOk, IfErr, OnOk, OnErr, IsErr, Contains, length, min, take, drop, is_some, unwrap_or};
ghost use Rattle.files_door.specs.Counts.{next_count};
ghost use Rattle.files_door.specs.Files.{file_at};
ghost use Rattle.files_door.specs.FilesInMemory.{counted, entries, failed};
ghost use Rattle.files_door.specs.declared.stop.Stop.TheVariants.{Failed};

use crate::counts::next;
use crate::files::Files;
use crate::steady_files::SteadyFiles;
use crate::stop::Stop;
use map_base::Text;
use std::marker::Model;

/// Files in memory, of which the calls with listed numbers fail. Calls of `begin` and `read` are counted
/// together, from 1; the number stays at the greatest u64.
#[derive(Drop)]
pub struct MemoryFiles {
    held: SteadyFiles,
    failing: Vec<u64>,
    calls: u64,
    faults: u64,
}

impl Model for MemoryFiles {
    ghost use Rattle.files_door.specs.FilesInMemory.{FailingFiles};

    ghost Value = { FailingFiles };

    ghost view = { λ m. record { files = m.held.files; unread = m.held.unread; failing = m.failing.items; calls = m.calls; faults = m.faults } };
}

impl MemoryFiles {
    /// These files, each with its path, and the numbers of the calls that fail. Of two files of one path
    /// the first counts. No file is begun, and no call is counted yet.
    pub fn with(files: Vec<(Text, Vec<u8>)>, failing: Vec<u64>) -> MemoryFiles
        ensures { result ≡ record { files = entries files.items; unread = []; failing = failing.items; calls = 0; faults = 0 } }
    {
        MemoryFiles {
            held: SteadyFiles::with(files),
            failing,
            calls: 0,
            faults: 0,
        }
    }

    // Counts a call. It fails where its number is listed, and then no file is begun.
    fn count(&mut self) -> Result<(), Stop>
        ensures fails { IsErr result ↔ Contains self.old.failing (next_count self.old.calls) }
        ensures ok { OnOk result (self.new ≡ counted self.old) }
        ensures failed { IfErr result (λ stop. (stop ≡ Failed) × (self.new ≡ failed self.old)) }
    {
        self.calls = next(self.calls);
        if !self.failing.contains(&self.calls) {
            return Ok(());
        }
        self.faults = next(self.faults);
        self.held.close();
        Err(Stop::Failed)
    }
}

impl Files for MemoryFiles {
    ghost use Rattle.std.specs.Prelude.{Some};

    ghost told = { λ m. Some m.files };

    ghost rest = { λ m. Some m.unread };

    ghost faults = { λ m. m.faults };

    fn begin(&mut self, path: &str) -> Result<bool, Stop>
        ensures fails { IsErr result ↔ Contains self.old.failing (next_count self.old.calls) }
        ensures answer { IfOk result (λ found. found ≡ is_some (file_at self.old.files path.now)) }
        ensures after { OnOk result (self.new ≡ record (counted self.old) { unread = unwrap_or (file_at self.old.files path.now) [] }) }
        ensures failed { IfErr result (λ stop. (stop ≡ Failed) × (self.new ≡ failed self.old)) }
    {
        self.count()?;
        self.held.begin(path)
    }

    fn read(&mut self, into: &mut [u8]) -> Result<usize, Stop>
        ensures fails { IsErr result ↔ Contains self.old.failing (next_count self.old.calls) }
        ensures answer { IfOk result (λ count. count ≡ min (length into.old) (length self.old.unread)) }
        ensures moved { IfOk result (λ count. take count into.new ≡ take count self.old.unread) }
        ensures behind { IfOk result (λ count. drop count into.new ≡ drop count into.old) }
        ensures after { IfOk result (λ count. self.new ≡ record (counted self.old) { unread = drop count self.old.unread }) }
        ensures failed { IfErr result (λ stop. (stop ≡ Failed) × (self.new ≡ failed self.old)) }
        ensures lent { OnErr result (into.new ≡ into.old) }
    {
        self.count()?;
        self.held.read(into)
    }
}
