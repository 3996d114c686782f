//! Searches of which the orders, the proof and the branch nodes are known.

use crate::answers::searched_text;
use crate::known;
use crate::known::Small;
use crate::problems::problem_of;
use std::alloc::Global;
use std::test::Fail;

/// What a search of a small problem by at most so many branch nodes tells.
fn searched(alloc: Global, small: Small, budget: u16) -> Result<String, Fail> {
    let problem = problem_of(alloc, small.lines, small.terms)?;
    searched_text(alloc, problem, budget)
}

/// Whether a search tells so as soon as it may have this number of branch nodes, and is spent below it.
fn is_known(alloc: Global, small: Small, branches: u16, told: &str) -> Result<bool, Fail> {
    if branches > 0 {
        let spent = format!(in alloc; "spent {branches}")?;
        if searched(alloc, small, branches - 1)?.as_str() != spent.as_str() {
            return Ok(false);
        }
    }
    let found = searched(alloc, small, branches)?;
    Ok(found.as_str() == told)
}

/// Problems with the branch nodes of their search, and what it tells.
const KNOWN: [(Small, u16, &str); 5] = [
    // Two lines cross between their segments.
    (
        known::CROSSING,
        2,
        "/ 0 1/ 1 0\nrules 0\nparts 1\npart 1 1 3\nsplit 1 2\ntake 0\nsplit 3 2\ntake 1\nclose 0\ntake 0\nclose 0\ntake 1\nclose 0\nbranches 2\n",
    ),
    // Two lines have all three connections.
    (
        known::CONNECTIONS,
        3,
        "/ 0 1/ 0 1/ 1 0\nrules 0\nparts 1\npart 21 0 1 2\nsplit 0 2\ntake 0\nsplit 1 2\ntake 0\nsplit 2 2\ntake 1\nclose 0\ntake 0\nclose 0\ntake 1\nclose 0\ntake 1\nclose 1 8 12\nbranches 3\n",
    ),
    // Lines that go on together are neighbours.
    (
        known::SEPARATION,
        3,
        "/ 0 2 1/ 0 2\nrules 0\nparts 1\npart 0 0 1\nsplit 0 3\ntake 0\nsplit 0 2\ntake 2\nsplit 1 2\ntake 0\nclose 0\ntake 2\nclose 0\ntake 1\nclose 0\ntake 2\nclose 0\ntake 1\nclose 0\nbranches 3\n",
    ),
    // The number order wins a tie.
    (
        known::TIE,
        0,
        "/ 0 1\nrules 0\nparts 1\npart 3 1\nclose 0\nbranches 0\n",
    ),
    // An important line stands where it crosses none.
    (
        known::IMPORTANT,
        2,
        "/ 0 1 2/ 0 2\nrules 0\nparts 1\npart 9 1 4\nsplit 1 3\ntake 0\nsplit 1 2\ntake 1\nclose 0\ntake 2\nclose 0\ntake 1\nclose 0\ntake 2\nclose 0\nbranches 2\n",
    ),
];

#[test]
fn searches_tell_what_is_known(rt: HostRuntime) -> Result<(), Fail> {
    for (small, branches, told) in KNOWN {
        assert!(rt; is_known(rt.alloc(), small, branches, told)?, "{told}");
    }
    Ok(())
}

/// Whether what a search tells begins with these orders and this part, and it has so many branch nodes.
fn begins(alloc: Global, small: Small, told: &str) -> Result<bool, Fail> {
    let found = searched(alloc, small, 1000)?;
    Ok(found.as_str().starts_with(told))
}

#[test]
fn a_line_of_no_importance_stands_outside_where_it_ends(rt: HostRuntime) -> Result<(), Fail> {
    let alloc = rt.alloc();
    let told = "/ 0 2 1/ 0 2\nrules 0\nparts 1\npart 3 1 4\n";
    assert!(rt; begins(alloc, known::ENDING, told)?);
    let spent = searched(alloc, known::ENDING, 2)?;
    assert_eq!(rt; spent.as_str(), "spent 3");
    let found = searched(alloc, known::ENDING, 3)?;
    assert!(rt; found.as_str().ends_with("branches 3\n"));
    Ok(())
}

#[test]
fn two_pairs_are_better_mixed(rt: HostRuntime) -> Result<(), Fail> {
    let told = "/ 0 2 1 3/ 0 4 1/ 2 4 3\nrules 0\nparts 1\npart 5 0 1 2\n";
    assert!(rt; begins(rt.alloc(), known::TWO_PAIRS, told)?);
    Ok(())
}
