//! What a picture asks of a drawing.

ghost use Rattle.std.specs.Prelude.{◌≡◌, ◌≤◌, ℤ, unsigned_abs, OnOk};
ghost use Rattle.svg_writer.specs.Courses.{Courses};

use line_offsets::Corner;
use map_base::{NoMemory, NodeId};

/// A drawing of a line graph: where lines run beside its segments, and where its nodes lie.
pub trait Drawn: Drop {
    /// The paths of lines, and the places of nodes.
    ghost courses: { Self → Courses };

    /// Lines that stand so many places beside their segments can be drawn.
    ghost Reaches: { Self → ℤ → Type 0 };

    /// Puts the corners of the line that stands k places to the right of a segment into `path`, in place of what it held.
    fn put_line(&self, path: &mut Vec<Corner>, s: u32, k: i32) -> Result<(), NoMemory>
        requires { Reaches self.now k }
        ensures { OnOk result (path.new.items ≡ (courses self.now).path s k) };

    /// Where this line starts, at the lower end of its segment.
    fn start(&self, s: u32, k: i32) -> Corner
        requires { Reaches self.now k }
        ensures { result ≡ (courses self.now).start s k };

    /// Where it ends, at the upper end.
    fn end(&self, s: u32, k: i32) -> Corner
        requires { Reaches self.now k }
        ensures { result ≡ (courses self.now).end s k };

    /// Where a node lies.
    fn centre(&self, n: NodeId) -> Corner
        ensures value { result ≡ (courses self.now).centre n.0 }
        ensures across { unsigned_abs result.x ≤ 1099511627776 }
        ensures down { unsigned_abs result.y ≤ 1099511627776 };
}
