//! Spaces at the ends of a text.

ghost use Rattle.std.specs.Prelude.{◌≡◌};
ghost use Rattle.gtfs_fields.specs.Spaces.{trimmed, without_leading_spaces};
ghost use Rattle.std.specs.Prelude.{reverse};

#[tactic(auto, using(crate::proofs::SpaceLemmas::leading_space, crate::proofs::SpaceLemmas::no_leading_space, crate::proofs::SpaceLemmas::nothing_leading))]
fn trim_front(text: &[u8]) -> &[u8]
    ensures { result.now ≡ without_leading_spaces text.now }
{
    let mut rest = text;
    while let [b' ', after @ ..] = rest {
        rest = after;
    }
    rest
}

#[tactic(auto, using(crate::proofs::SpaceLemmas::trailing_space, crate::proofs::SpaceLemmas::no_trailing_space, crate::proofs::SpaceLemmas::nothing_trailing))]
fn trim_back(text: &[u8]) -> &[u8]
    ensures { result.now ≡ reverse (without_leading_spaces (reverse text.now)) }
{
    let mut rest = text;
    while let [before @ .., b' '] = rest {
        rest = before;
    }
    rest
}

/// The text without the spaces (U+0020 alone) at both its ends.
pub fn trim_spaces(text: &[u8]) -> &[u8]
    ensures { result.now ≡ trimmed text.now }
{
    trim_back(trim_front(text))
}
