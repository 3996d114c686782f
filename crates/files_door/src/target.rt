//! Where bytes are written to.

ghost use Rattle.std.specs.Prelude.{◌≡◌};

use map_base::Text;

/// A place that bytes are written to.
#[derive(Debug, Drop)]
pub enum Target {
    /// Standard output.
    Said,
    /// The file of this path.
    Path(Text),
}

impl Target {
    ghost use Rattle.files_door.specs.Targets.{same_target};

    /// Whether both are standard output, or both are files of one path.
    pub fn is_same(&self, other: &Target) -> bool
        ensures { result ≡ same_target self.now other.now }
    {
        match (self, other) {
            (Target::Said, Target::Said) => true,
            (Target::Path(path), Target::Path(other_path)) => path.as_str() == other_path.as_str(),
            _ => false,
        }
    }
}
