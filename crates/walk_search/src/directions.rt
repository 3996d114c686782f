//! Directions by their numbers, and masks of ports.

ghost use Rattle.std.specs.Prelude.{◌≡◌, ◌<◌, Some};
ghost use Rattle.walk_search.specs.Moves.{direction};
ghost use Rattle.walk_search.specs.Routes.{allows};

use octi_grid::Dir;

/// The direction of a number.
pub(crate) fn direction(number: u8) -> Dir
    requires { number < 8 }
    ensures { result ≡ direction number }
{
    match number {
        0 => Dir::N,
        1 => Dir::NE,
        2 => Dir::E,
        3 => Dir::SE,
        4 => Dir::S,
        5 => Dir::SW,
        6 => Dir::W,
        _ => Dir::NW,
    }
}

/// Whether a mask allows the port of a direction.
pub fn allows(mask: u8, port: Dir) -> bool
    ensures { result ≡ allows mask (Some port) }
{
    (mask >> port.index()) & 1 == 1
}
