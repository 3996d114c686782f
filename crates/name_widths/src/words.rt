//! The first words of names.

ghost use Rattle.std.specs.Prelude.{◌≡◌, MatchOption, Some, None};
ghost use Rattle.name_widths.specs.Words.{parts};

/// The first word of a name, up to its first space, and what follows the space, where something does.
pub fn parts(name: &str) -> Option<(&str, &str)>
    ensures { MatchOption result (parts name.now ≡ None) (λ p. parts name.now ≡ Some (p.0.now, p.1.now)) }
{
    let (word, rest) = name.split_once(' ')?;
    if rest.is_empty() {
        return None;
    }
    Some((word, rest))
}
