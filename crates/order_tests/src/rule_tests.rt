//! Rules of problems, in turn, and rules that don't apply.

use crate::answers::{checked_text, untangled_text};
use crate::known;
use crate::known::Small;
use crate::problems::problem_of;
use map_base::SegId;
use order_rules::{apply_rule, rule_applies};
use order_values::Rule;
use std::alloc::Global;
use std::test::Fail;

/// The orders of a small problem where what untangling leaves has the number order, and the rules.
fn untangled(alloc: Global, small: Small) -> Result<String, Fail> {
    let problem = problem_of(alloc, small.lines, small.terms)?;
    untangled_text(alloc, problem)
}

/// Problems with what untangling tells: lines that agree share an order and are set apart, lines part at a junction without
/// crossing, and no rule applies where it would cost.
const UNTANGLED: [(Small, &str); 5] = [
    (
        known::AGREEING,
        "/ 0/ 0 1/ 1/ 0 1/ 0/ 1\nrules 2\nmerge 1 3 0\ndivide 1 0\nparts 0\n",
    ),
    (
        known::JUNCTION,
        "/ 1 0/ 0/ 1\nrules 1\ndivide 0 1\nparts 0\n",
    ),
    (
        known::CROSSING,
        "/ 0/ 0 1/ 1/ 0 1/ 1/ 0\nrules 0\nparts 0\n",
    ),
    (known::SEPARATION, "/ 0 1 2/ 0 2/ 1\nrules 0\nparts 0\n"),
    (
        known::TWO_PAIRS,
        "/ 0 1 2 3/ 0 1 4/ 2 3 4\nrules 0\nparts 0\n",
    ),
];

#[test]
fn rules_apply_where_they_cost_nothing(rt: HostRuntime) -> Result<(), Fail> {
    for (small, wanted) in UNTANGLED {
        let told = untangled(rt.alloc(), small)?;
        assert_eq!(rt; told.as_str(), wanted);
    }
    Ok(())
}

/// Rules that don't apply where two lines have to cross: of segments and lines that there are not, of a segment with
/// itself, of no lines, of all lines of a segment and of lines that aren't on it, and those that would cost more than they
/// spare.
const WRONG: [&str; 11] = [
    "merge 1 4294967295 0",
    "merge 4294967295 1 0",
    "merge 1 1 0",
    "merge 0 1 0",
    "merge 1 3 0",
    "merge 1 3 1",
    "divide 4294967295 0",
    "divide 1",
    "divide 1 0 1",
    "divide 1 4294967295",
    "divide 0 0",
];

/// What the checker says of a proof of one rule and no parts where two lines have to cross.
fn of_rule(alloc: Global, rule: &str) -> Result<String, Fail> {
    let text = format!(in alloc; "rules 1\n{rule}\nparts 0\n")?;
    let problem = problem_of(alloc, known::CROSSING.lines, known::CROSSING.terms)?;
    checked_text(alloc, problem, text.as_bytes())
}

#[test]
fn rules_that_do_not_apply_are_refused(rt: HostRuntime) -> Result<(), Fail> {
    let alloc = rt.alloc();
    for rule in WRONG {
        let told = of_rule(alloc, rule)?;
        assert_eq!(rt; told.as_str(), "rule 0", "{rule}");
    }
    Ok(())
}

/// Two lines that agree share two segments: the first stands for both after the merge.
#[test]
fn a_merge_leaves_no_lines_on_its_second_segment(rt: HostRuntime) -> Result<(), Fail> {
    let alloc = rt.alloc();
    let problem = problem_of(alloc, known::AGREEING.lines, known::AGREEING.terms)?;
    let merge = Rule::Merge {
        into: SegId(1),
        from: SegId(3),
        flip: false,
    };
    if !rule_applies(&problem, &merge) {
        return Err(Fail::from("the merge does not apply"));
    }
    let after = apply_rule(alloc, problem, &merge)?;
    let mut counts = Vec::new(alloc);
    for lines in after.segs() {
        counts.push(lines.as_slice().len())?;
    }
    assert_eq!(rt; counts.as_slice(), [1, 2, 1, 0, 1, 1].as_slice());
    Ok(())
}
