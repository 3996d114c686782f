//! Files that are read one at a time.

ghost use Rattle.std.specs.Prelude.{◌≡◌, ℕ, ◌<◌, ◌≤◌, List, [], take, length, false, Option, Some, is_some, unwrap_or, IfSome, IfOk, OnOk, OnErr};
ghost use Rattle.std.specs.Io.KnownBytes.{Consumes, IsAtEnd};
ghost use Rattle.files_door.specs.Fault.{HasCause};
ghost use Rattle.files_door.specs.Files.{file_at};

use crate::stop::Stop;

/// Files by path, of which one at a time is begun and read to its end.
pub trait Files {
    /// The files, each with its path, where they are told. Of two files of one path the first counts.
    ghost told: { Self → Option (List (List ℕ × List ℕ)) };

    /// What is unread of the begun file, where that is told. It is the empty list where no file is begun.
    ghost rest: { Self → Option (List ℕ) };

    /// How often it failed. The count never falls.
    ghost faults: { Self → ℕ };

    /// Begins the file of this path at its first byte. Answers false where there is no such file; then,
    /// and after a refusal, no file is begun.
    fn begin(&mut self, path: &str) -> Result<bool, Stop>
        ensures found { IfOk result (λ found. IfSome (told self.old) (λ files. found ≡ is_some (file_at files path.now))) }
        ensures unread { OnOk result (IfSome (told self.old) (λ files. rest self.new ≡ Some (unwrap_or (file_at files path.now) []))) }
        ensures absent { IfOk result (λ found. found ≡ false → rest self.new ≡ Some []) }
        ensures refused { OnErr result (rest self.new ≡ Some []) }
        ensures told { told self.new ≡ told self.old }
        ensures cause { HasCause (faults self.old) (faults self.new) result };

    /// Moves the next bytes of the begun file into the front of `into`, and answers how many. 0 means the
    /// file's end, unless `into` is empty. Where no file is begun it answers 0. After a refusal no file is
    /// begun.
    fn read(&mut self, into: &mut [u8]) -> Result<usize, Stop>
        ensures bound { IfOk result (λ count. count ≤ length into.new) }
        ensures bytes { IfOk result (λ count. Consumes (rest self.old) (rest self.new) (take count into.new)) }
        ensures end { IfOk result (λ count. count ≡ 0 → 0 < length into.old → IsAtEnd (rest self.old)) }
        ensures lent { OnErr result (IfSome (told self.old) (λ _. into.new ≡ into.old)) }
        ensures refused { OnErr result (rest self.new ≡ Some []) }
        ensures told { told self.new ≡ told self.old }
        ensures cause { HasCause (faults self.old) (faults self.new) result };
}
