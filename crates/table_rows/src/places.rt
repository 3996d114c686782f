//! Places as numbers of 32 bits.

ghost use Rattle.std.specs.Prelude.{◌≡◌, ◌<◌, ◌^◌, IfSome};

/// A place that is below 2^32.
pub fn small(place: Option<usize>) -> Option<u32>
    requires { IfSome place (λ n. n < 2 ^ 32) }
    ensures { result ≡ place }
{
    match place {
        None => None,
        Some(place) => Some(place as u32),
    }
}
