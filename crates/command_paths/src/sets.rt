//! The values of `--set` among the words of a command line.

ghost use Rattle.std.specs.Prelude.{◌≡◌, ◌<◌, true, length, map, option_map, string_bytes, IfSome};
ghost use Rattle.command_paths.specs.Sets.{set_joined, sets_cut, sets_from, sets_of};

/// The value of the first `--set` among the words, and the words behind it. From `--` on there is none.
#[tactic(auto, using(crate::proofs::StepLemmas::at_end, crate::proofs::StepLemmas::at_set, crate::proofs::StepLemmas::at_other))]
pub fn next_set<'a>(words: &'a [String]) -> Option<(&'a str, &'a [String])>
    ensures first { sets_of words.now ≡ sets_cut (option_map (λ x. (x.0.now, map string_bytes x.1.now)) result) }
    ensures shorter { IfSome result (λ x. length x.1.now < length words.now) }
{
    let mut rest = words;
    'words: while let [word, behind @ ..] = rest {
        if word.as_str() == "--" {
            return None;
        }
        if word.as_str() == "--set" {
            return first_of(behind);
        }
        if let Some(value) = joined(word.as_str()) {
            return Some((value, behind));
        }
        rest = behind;
    }
    None
}

/// What stands behind `--set=` in a word, if it begins so.
fn joined(word: &str) -> Option<&str>
    ensures { option_map (λ value. value.now) result ≡ set_joined word.now }
{
    word.strip_prefix("--set=")
}

/// The first word, and those behind it.
fn first_of<'a>(words: &'a [String]) -> Option<(&'a str, &'a [String])>
    ensures first { sets_from true (map string_bytes words.now) ≡ sets_cut (option_map (λ x. (x.0.now, map string_bytes x.1.now)) result) }
    ensures shorter { IfSome result (λ x. length x.1.now < length words.now) }
{
    match words {
        [value, behind @ ..] => Some((value.as_str(), behind)),
        [] => None,
    }
}
