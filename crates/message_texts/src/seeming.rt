//! What the path seems to be that should name the folder of a feed.

ghost use Rattle.std.specs.Prelude.{◌≡◌, []};
ghost use Rattle.std.specs.Str.{str_eq_ignore_ascii_case};
ghost use Rattle.message_texts.specs.Seems.{begins_so, is_address, seeming_of};

/// What lies at a path, as far as it was looked at.
#[derive(Clone, Copy, Debug, PartialEq, Eq)]
pub enum Found {
    /// Nothing.
    Nothing,
    /// A file, which is an archive or not.
    File {
        is_zip: bool,
    },
    /// A folder, with the table in it or not, with a folder in it that has the table or not, and with an archive in it
    /// or not.
    Folder {
        has_table: bool,
        has_inner: bool,
        has_packed: bool,
    },
}

/// What a path seems to be.
#[derive(Clone, Copy, Debug, PartialEq, Eq)]
pub enum Seeming {
    /// No path: an empty text.
    Empty,
    /// An address, of the web or of another kind.
    Address,
    /// The path of nothing.
    Nothing,
    /// A packed feed.
    Packed,
    /// A file that is no archive.
    File,
    /// A folder round the folder of a feed.
    Outer,
    /// A folder with a packed feed in it.
    HoldsPacked,
    /// A folder of other things.
    Other,
    /// A folder of a feed, with the table.
    Feed,
}

/// What a path seems to be, by what lies there.
pub fn path_seems(path: &str, found: Found) -> Seeming
    ensures { result ≡ seeming_of path.now found }
{
    match found {
        Found::Nothing => seeming_of_nothing(path),
        Found::File { is_zip: true } => Seeming::Packed,
        Found::File { is_zip: false } => Seeming::File,
        Found::Folder {
            has_table,
            has_inner,
            has_packed,
        } => seeming_of_folder(has_table, has_inner, has_packed),
    }
}

/// What a path seems to be where nothing lies.
fn seeming_of_nothing(path: &str) -> Seeming
    ensures { result ≡ seeming_of path.now Found.Nothing }
{
    if path.is_empty() {
        return Seeming::Empty;
    }
    if is_address(path) {
        return Seeming::Address;
    }
    Seeming::Nothing
}

/// What a folder seems to be.
fn seeming_of_folder(has_table: bool, has_inner: bool, has_packed: bool) -> Seeming
    ensures { result ≡ seeming_of [] (Found.Folder has_table has_inner has_packed) }
{
    if has_table {
        return Seeming::Feed;
    }
    if has_inner {
        return Seeming::Outer;
    }
    if has_packed {
        return Seeming::HoldsPacked;
    }
    Seeming::Other
}

/// Whether a text begins as an address does, in small letters or in capitals.
fn is_address(path: &str) -> bool
    ensures { result ≡ is_address path.now }
{
    let path = path.as_bytes();
    if begins_so(path, b"http://") || begins_so(path, b"https://") {
        return true;
    }
    begins_so(path, b"ftp://") || begins_so(path, b"file://")
}

/// Whether a text begins with these letters, be they small or capitals.
fn begins_so(path: &[u8], letters: &[u8]) -> bool
    ensures { result ≡ begins_so path.now letters.now }
{
    if letters.len() <= path.len() {
        is_same(path.split_at(letters.len()).0, letters)
    } else {
        false
    }
}

/// Whether two texts have the same letters, be they small or capitals.
fn is_same(one: &[u8], other: &[u8]) -> bool
    ensures { result ≡ str_eq_ignore_ascii_case one.now other.now }
{
    one.eq_ignore_ascii_case(other)
}
