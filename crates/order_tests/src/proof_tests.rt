//! Proofs that are accepted, and proofs that are refused, each at a node that is known.

use crate::answers::checked_text;
use crate::known;
use crate::known::Small;
use crate::problems::Kind::Side;
use crate::problems::problem_of;
use std::alloc::Global;
use std::test::Fail;

/// What the checker says of the text of a proof of a small problem, whose lines stand in the number order.
fn checked(alloc: Global, small: Small, text: &str) -> Result<String, Fail> {
    let problem = problem_of(alloc, small.lines, small.terms)?;
    checked_text(alloc, problem, text.as_bytes())
}

/// Proofs, each with what the checker says.
const CHECKED: [(Small, &str, &str); 8] = [
    // A split of the first segment by one of two lines.
    (
        known::CROSSING,
        "rules 0\nparts 1\npart 1 1 3\nsplit 1 1\ntake 0\nsplit 3 2\ntake 1\nclose 0\ntake 0\nclose 0\n",
        "part 0 after",
    ),
    // A price above the weight of its Link.
    (
        known::CONNECTIONS,
        "rules 0\nparts 1\npart 21 0 1 2\nsplit 0 2\ntake 0\nsplit 1 2\ntake 0\nsplit 2 2\ntake 1\nclose 0\ntake 0\nclose 0\ntake 1\nclose 0\ntake 1\nclose 1 8 13\n",
        "part 0 after 1",
    ),
    // No prices; one on the Link of the other part, and one that only the other Link could bear.
    (
        known::TWO_PARTS,
        "rules 0\nparts 2\npart 0 0 1\nclose 0\npart 0 2 3\nclose 0\n",
        "best",
    ),
    (
        known::TWO_PARTS,
        "rules 0\nparts 2\npart 0 0 1\nclose 1 1 1\npart 0 2 3\nclose 0\n",
        "part 0 after",
    ),
    (
        known::TWO_PARTS,
        "rules 0\nparts 2\npart 0 0 1\nclose 1 0 3\npart 0 2 3\nclose 0\n",
        "part 0 after",
    ),
    // A price on an Apart, in thousandths: what the target needs, one less, and one above its weight.
    (
        known::IMPORTANT,
        "rules 0\nparts 1\npart 9 1 4\nstop 1 4 8001\n",
        "best",
    ),
    (
        known::IMPORTANT,
        "rules 0\nparts 1\npart 9 1 4\nstop 1 4 8000\n",
        "part 0 after",
    ),
    (
        known::IMPORTANT,
        "rules 0\nparts 1\npart 9 1 4\nstop 1 4 9001\n",
        "part 0 after",
    ),
];

#[test]
fn proofs_are_accepted_or_refused_at_their_first_wrong_node(rt: HostRuntime) -> Result<(), Fail> {
    for (small, text, verdict) in CHECKED {
        let told = checked(rt.alloc(), small, text)?;
        assert_eq!(rt; told.as_str(), verdict, "{text}");
    }
    Ok(())
}

/// Trees of settled pairs where two lines have to cross, each with its target and what the checker says; the number order
/// costs 5. A price of a thousandth on the Link is enough to show a cost of 1, or one line is settled first on the second
/// segment, and then the other.
const BY_PAIRS: [(u32, &str, &str); 17] = [
    (1, "stop 1 1 1000\n", "total"),
    (1, "stop 1 1 1\n", "total"),
    (1, "fork 1 0 1\nstop 1 1 1\nstop 0\n", "total"),
    (0, "fork 1 0 1\nstop 0\nstop 0\n", "total"),
    (1, "stop 0\n", "part 0 after"),
    (2, "stop 1 1 1000\n", "part 0 after"),
    (1, "stop 1 1 1001\n", "part 0 after"),
    (1, "stop 1 1 -1\n", "part 0 after"),
    (1, "stop 1 0 1\n", "part 0 after"),
    (1, "stop 1 3 1\n", "part 0 after"),
    (0, "fork 0 0 1\nstop 0\nstop 0\n", "part 0 after"),
    (0, "fork 4294967295 0 1\nstop 0\nstop 0\n", "part 0 after"),
    (0, "fork 1 0 0\nstop 0\nstop 0\n", "part 0 after"),
    (0, "fork 1 0 2\nstop 0\nstop 0\n", "part 0 after"),
    (1, "fork 1 0 1\nstop 0\nstop 0\n", "part 0 after 0"),
    (1, "fork 1 1 0\nstop 0\nstop 0\n", "part 0 after 0"),
    (
        1,
        "fork 1 0 1\nstop 1 1 1\nfork 3 0 1\nstop 0\nstop 1 1 1001\n",
        "part 0 after 1 1",
    ),
];

#[test]
fn trees_of_settled_pairs_are_refused_at_their_first_wrong_node(
    rt: HostRuntime,
) -> Result<(), Fail> {
    let alloc = rt.alloc();
    for (target, tree, verdict) in BY_PAIRS {
        let text = format!(in alloc; "rules 0\nparts 1\npart {target} 1 3\n{tree}")?;
        let told = checked(alloc, known::CROSSING, text.as_str())?;
        assert_eq!(rt; told.as_str(), verdict, "{tree}");
    }
    Ok(())
}

/// So many lines on one segment, the first of which is to stand before the second.
fn of_width(alloc: Global, mask: u32) -> Result<String, Fail> {
    let problem = problem_of(alloc, [mask].as_slice(), [(Side, 0, 0, 0, 1, 1)].as_slice())?;
    checked_text(alloc, problem, b"rules 0\nparts 1\npart 0 0\nstop 0\n")
}

#[test]
fn a_stop_is_of_segments_with_sixteen_lines_at_most(rt: HostRuntime) -> Result<(), Fail> {
    let alloc = rt.alloc();
    let told = of_width(alloc, 0xffff)?;
    assert_eq!(rt; told.as_str(), "best");
    let told = of_width(alloc, 0x1_ffff)?;
    assert_eq!(rt; told.as_str(), "part 0 after");
    Ok(())
}

/// A tree of forks, two to the power of `depth` stops in all.
fn forks(alloc: Global, depth: u32) -> Result<String, Fail> {
    let mut text = format!(in alloc; "stop 0\n")?;
    for _ in 0..depth {
        text = format!(in alloc; "fork 1 0 1\n{text}{text}")?;
    }
    Ok(text)
}

/// What the checker says of such a tree.
fn of_forks(alloc: Global, depth: u32) -> Result<String, Fail> {
    let tree = forks(alloc, depth)?;
    let text = format!(in alloc; "rules 0\nparts 1\npart 0 1 3\n{tree}")?;
    checked(alloc, known::CROSSING, text.as_str())
}

#[test]
fn a_tree_has_no_more_stops_than_its_load_allows(rt: HostRuntime) -> Result<(), Fail> {
    let alloc = rt.alloc();
    let told = of_forks(alloc, 16)?;
    assert_eq!(rt; told.as_str(), "total");
    let told = of_forks(alloc, 17)?;
    assert_eq!(rt; told.as_str(), "part 0 after");
    Ok(())
}
