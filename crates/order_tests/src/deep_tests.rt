//! A problem as deep as the limit, and one that is deeper by one.

use crate::answers::{checked_text, searched_text};
use crate::problems::Kind::{Apart, Side};
use crate::problems::{Row, problem_of};
use order_model::Problem;
use std::alloc::{AllocError, Global};
use std::fmt::Write;
use std::test::Fail;

/// The lines of so many segments with two lines, and of a last one with three.
fn deep_lines(alloc: Global, count: u32) -> Result<Vec<u32>, AllocError> {
    let mut masks = Vec::new(alloc);
    for _ in 0..count {
        masks.push(0b011)?;
    }
    masks.push(0b111)?;
    Ok(masks)
}

/// Terms for these: line 0 stands before line 1 on each segment, and line 1 before line 2 and line 2 before line 0 on the
/// last, or it costs 1. Aparts make the segments one part.
fn deep_terms(alloc: Global, count: u32) -> Result<Vec<Row>, AllocError> {
    let mut rows = Vec::new(alloc);
    for seg in 0..count {
        rows.push((Side, seg, seg, 0, 1, 1))?;
        rows.push((Apart, seg, seg.saturating_add(1), 0, 1, 1))?;
    }
    rows.push((Side, count, count, 0, 1, 1))?;
    rows.push((Side, count, count, 1, 2, 1))?;
    rows.push((Side, count, count, 2, 0, 1))?;
    Ok(rows)
}

/// The problem of these.
fn deep(alloc: Global, count: u32) -> Result<Problem, Fail> {
    let masks = deep_lines(alloc, count)?;
    let rows = deep_terms(alloc, count)?;
    problem_of(alloc, masks.as_slice(), rows.as_slice())
}

/// Its proof: line 0 goes first on each segment with two lines, and whatever goes first on the last, it costs 1.
fn deep_proof(alloc: Global, count: u32) -> Result<String, Fail> {
    let mut text = String::new(alloc);
    write!(text, "rules 0\nparts 1\npart 1")?;
    for seg in 0..=count {
        write!(text, " {seg}")?;
    }
    write!(text, "\n")?;
    for seg in 0..count {
        write!(text, "split {seg} 2\ntake 0\n")?;
    }
    write!(
        text,
        "split {count} 3\ntake 0\nclose 0\ntake 1\nclose 0\ntake 2\nclose 0\n"
    )?;
    for _ in 0..count {
        write!(text, "take 1\nclose 0\n")?;
    }
    Ok(text)
}

/// Each segment with two lines has one place, the last has two: 2,048 in all.
#[test]
fn a_check_goes_as_deep_as_the_limit(rt: HostRuntime) -> Result<(), Fail> {
    let alloc = rt.alloc();
    let proof = deep_proof(alloc, 2046)?;
    let told = checked_text(alloc, deep(alloc, 2046)?, proof.as_bytes())?;
    assert_eq!(rt; told.as_str(), "best");
    Ok(())
}

#[test]
fn a_search_goes_as_deep_as_the_limit(rt: HostRuntime) -> Result<(), Fail> {
    let alloc = rt.alloc();
    let proof = deep_proof(alloc, 2046)?;
    let told = searched_text(alloc, deep(alloc, 2046)?, 2047)?;
    assert!(rt; told.as_str().contains(proof.as_str()));
    assert!(rt; told.as_str().ends_with("branches 2047\n"));
    Ok(())
}

#[test]
fn a_search_goes_no_deeper_than_the_limit(rt: HostRuntime) -> Result<(), Fail> {
    let alloc = rt.alloc();
    let told = searched_text(alloc, deep(alloc, 2047)?, 2048)?;
    assert_eq!(rt; told.as_str(), "too deep 2049 2048");
    Ok(())
}
