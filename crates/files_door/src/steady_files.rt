//! Files in memory that never fail.

ghost use Rattle.std.specs.Prelude.{◌≡◌, ◌<◌, ◌≤◌, ◌^◌, [], Ok, IfOk, Some, length, min, take, drop, position, is_some, unwrap_or};
ghost use Rattle.std.specs.Option.{ForSome};
ghost use Rattle.std.specs.Str.{bytes_eq};
ghost use Rattle.files_door.specs.Files.{file_at};
ghost use Rattle.files_door.specs.FilesInMemory.{begun_bytes, entries};

use crate::files::Files;
use crate::stop::Stop;
use map_base::Text;
use std::marker::Model;

/// Files in memory, of which nothing fails and nothing takes memory.
#[derive(Drop)]
pub struct SteadyFiles {
    files: Vec<(Text, Vec<u8>)>,
    begun: Option<usize>,
    read: usize,
}

impl Model for SteadyFiles {
    ghost use Rattle.std.specs.Prelude.{◌<◌, ◌≤◌, drop, length};
    ghost use Rattle.std.specs.Option.{ForSome};
    ghost use Rattle.files_door.specs.FilesInMemory.{ReadFiles, begun_bytes, entries};

    ghost Value = { ReadFiles };

    ghost view = { λ s. record { files = entries s.files.items; unread = drop s.read (begun_bytes (entries s.files.items) s.begun) } };

    ghost invariant = { λ s. ForSome s.begun (λ place. place < length s.files.items) × (s.read ≤ length (begun_bytes (entries s.files.items) s.begun)) };
}

impl SteadyFiles {
    /// These files, each with its path. Of two files of one path the first counts. No file is begun.
    pub fn with(files: Vec<(Text, Vec<u8>)>) -> SteadyFiles
        ensures { result ≡ record { files = entries files.items; unread = [] } }
    {
        SteadyFiles {
            files,
            begun: None,
            read: 0,
        }
    }

    /// No file is begun any more.
    pub(crate) fn close(&mut self)
        ensures { self.new ≡ record self.old { unread = [] } }
    {
        self.begun = None;
        self.read = 0;
    }
}

impl Files for SteadyFiles {
    ghost told = { λ s. Some s.files };

    ghost rest = { λ s. Some s.unread };

    ghost faults = { λ _. 0 };

    fn begin(&mut self, path: &str) -> Result<bool, Stop>
        ensures answer { result ≡ Ok (is_some (file_at self.old.files path.now)) }
        ensures after { self.new ≡ record self.old { unread = unwrap_or (file_at self.old.files path.now) [] } }
    {
        self.begun = place_of(&self.files, path);
        self.read = 0;
        Ok(self.begun.is_some())
    }

    fn read(&mut self, into: &mut [u8]) -> Result<usize, Stop>
        ensures answer { result ≡ Ok (min (length into.old) (length self.old.unread)) }
        ensures moved { IfOk result (λ count. take count into.new ≡ take count self.old.unread) }
        ensures behind { IfOk result (λ count. drop count into.new ≡ drop count into.old) }
        ensures after { IfOk result (λ count. self.new ≡ record self.old { unread = drop count self.old.unread }) }
    {
        let count = move_front(unread(&self.files, self.begun, self.read), into);
        self.read += count;
        Ok(count)
    }
}

// What is unread of the begun file.
fn unread(files: &[(Text, Vec<u8>)], begun: Option<usize>, read: usize) -> &[u8]
    requires begun { ForSome begun (λ place. place < length files.now) }
    requires read { read ≤ length (begun_bytes (entries files.now) begun) }
    ensures unread { result.now ≡ drop read (begun_bytes (entries files.now) begun) }
    ensures fits { length (begun_bytes (entries files.now) begun) < 2 ^ 64 }
{
    match begun {
        Some(place) => &files[place].1[read..],
        None => &[],
    }
}

// The place of the first file of this path.
fn place_of(files: &[(Text, Vec<u8>)], path: &str) -> Option<usize>
    ensures { result ≡ position (λ file. bytes_eq file.0 path.now) files.now }
{
    files.iter().position(|file| file.0.as_str() == path)
}

// Moves bytes to the front of `into` while there are some and there is room, and says how many.
fn move_front(bytes: &[u8], into: &mut [u8]) -> usize
    ensures count { result ≡ min (length into.old) (length bytes.now) }
    ensures moved { take result into.new ≡ take result bytes.now }
    ensures behind { drop result into.new ≡ drop result into.old }
{
    let count = into.len().min(bytes.len());
    into[..count].copy_from_slice(&bytes[..count]);
    count
}
