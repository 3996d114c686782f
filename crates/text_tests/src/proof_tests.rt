//! Texts of proofs that are read, and written again byte by byte; trees of the greatest depth, and deeper ones.

use map_base::NoMemory;
use order_proof::{BadText, read_proof, write_proof};
use std::alloc::Global;
use std::test::Fail;

/// Texts of proofs.
const TEXTS: [&[u8]; 9] = [
    b"rules 0\nparts 0\n",
    b"rules 2\nmerge 1 3 0\ndivide 1 0\nparts 0\n",
    b"rules 0\nparts 1\npart 21 0 1 2\nsplit 0 2\ntake 0\nsplit 1 2\ntake 0\nsplit 2 2\ntake 1\nclose 0\ntake 0\nclose 0\ntake 1\nclose 0\ntake 1\nclose 1 8 12\n",
    b"rules 0\nparts 1\npart 1 1 3\nsplit 1 2\ntake 0\nsplit 3 2\ntake 1\nclose 0\ntake 0\nclose 0\ntake 1\nclose 0\n",
    b"rules 0\nparts 1\npart 0 0 1\nsplit 0 3\ntake 0\nsplit 0 2\ntake 2\nsplit 1 2\ntake 0\nclose 0\ntake 2\nclose 0\ntake 1\nclose 0\ntake 2\nclose 0\ntake 1\nclose 0\n",
    b"rules 0\nparts 1\npart 3 1\nclose 0\n",
    b"rules 0\nparts 2\npart 1 0 1\nstop 0\npart 2 3 4\nstop 1 5 -3000\n",
    b"rules 0\nparts 2\npart 7 0 1\nfork 0 3 1\nfork 1 4294967295 4294967295\nstop 0\nstop 2 0 -1000000000000 4294967295 1000000000000\nstop 1 8 12\npart 0 2\nclose 1 9 -1\n",
    b"rules 1\nmerge 4294967295 0 1\nparts 2\npart 1000000000000000\nclose 2 0 -1000000000 4294967295 1000000000\npart 0 7 8\nclose 0\n",
];

#[test]
fn reads_and_writes(rt: HostRuntime) -> Result<(), Fail> {
    let alloc = rt.alloc();
    for text in TEXTS {
        let mut longer = Vec::from_slice(alloc, text)?;
        longer.extend_from_slice(b"rules 9")?;
        let (proof, used) = read_proof(alloc, &longer).ok().ok_or("a proof's text")?;
        assert_eq!(rt; used, text.len());
        let written = write_proof(alloc, &proof)?;
        let shown = written.as_slice();
        assert_eq!(rt; shown, text);
    }
    Ok(())
}

/// A tree with one split below the other.
fn deep_text(alloc: Global, splits: u32) -> Result<Vec<u8>, NoMemory> {
    let mut text = Vec::from_slice(alloc, b"rules 0\nparts 1\npart 0 0\n")?;
    for _ in 0..splits {
        text.extend_from_slice(b"split 0 1\ntake 0\n")?;
    }
    text.extend_from_slice(b"close 0\n")?;
    Ok(text)
}

#[test]
fn reads_a_tree_of_the_greatest_depth(rt: HostRuntime) -> Result<(), Fail> {
    let alloc = rt.alloc();
    let text = deep_text(alloc, 2_048)?;
    let (proof, used) = read_proof(alloc, &text).ok().ok_or("a proof's text")?;
    assert_eq!(rt; used, 34_849);
    let written = write_proof(alloc, &proof)?;
    assert_eq!(rt; written, text);
    Ok(())
}

#[test]
fn refuses_a_deeper_tree(rt: HostRuntime) -> Result<(), Fail> {
    let text = deep_text(rt.alloc(), 2_049)?;
    assert!(rt;
        matches!(
            read_proof(rt.alloc(), &text),
            Err(BadText::At { at: 34_841 })
        )
    );
    Ok(())
}

/// A dual tree with one fork below the other.
fn deep_dual_text(alloc: Global, forks: u32) -> Result<Vec<u8>, NoMemory> {
    let mut text = Vec::from_slice(alloc, b"rules 0\nparts 1\npart 0 0\n")?;
    for _ in 0..forks {
        text.extend_from_slice(b"fork 0 1 2\nstop 0\n")?;
    }
    text.extend_from_slice(b"stop 0\n")?;
    Ok(text)
}

#[test]
fn reads_a_dual_tree_of_the_greatest_depth(rt: HostRuntime) -> Result<(), Fail> {
    let alloc = rt.alloc();
    let text = deep_dual_text(alloc, 2_048)?;
    let (proof, used) = read_proof(alloc, &text).ok().ok_or("a proof's text")?;
    assert_eq!(rt; used, 36_896);
    let written = write_proof(alloc, &proof)?;
    assert_eq!(rt; written, text);
    Ok(())
}

#[test]
fn refuses_a_deeper_dual_tree(rt: HostRuntime) -> Result<(), Fail> {
    let text = deep_dual_text(rt.alloc(), 2_049)?;
    assert!(rt;
        matches!(
            read_proof(rt.alloc(), &text),
            Err(BadText::At { at: 36_889 })
        )
    );
    Ok(())
}

#[test]
fn refuses_a_number_of_400_digits(rt: HostRuntime) -> Result<(), Fail> {
    let mut text = Vec::from_slice(rt.alloc(), b"rules 0\nparts 1\npart ")?;
    for _ in 0..400 {
        text.push(b'9')?;
    }
    text.extend_from_slice(b"\nclose 0\n")?;
    assert!(rt; matches!(read_proof(rt.alloc(), &text), Err(BadText::At { at: 16 })));
    Ok(())
}
