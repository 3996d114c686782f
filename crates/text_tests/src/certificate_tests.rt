//! Texts of certificates that are read, and written again byte by byte.

use cert_file::{read_certificate, write_certificate};
use std::test::Fail;

/// Texts of certificates.
const TEXTS: [&[u8]; 5] = [
    b"octimap 1\ngraph 2 1 1\nwalk 0 0 0 E50\norder 0 0\ncost 0\nrules 0\nparts 0\n",
    b"octimap 1\ngraph 0 0 0\ncost 0\nrules 0\nparts 0\n",
    b"octimap 1\ngraph 7 6 2\nwalk 0 0 2 N2\nwalk 1 0 2 E2\nwalk 2 0 2 S2\nwalk 3 2 2 E2\nwalk 4 4 2 N2\nwalk 5 4 2 S2\norder 0 0\norder 1 0 1\norder 2 1\norder 3 0 1\norder 4 0\norder 5 1\ncost 0\nrules 2\nmerge 1 3 0\ndivide 1 0\nparts 0\n",
    b"octimap 1\ngraph 7 6 2\nwalk 0 0 2 N2\nwalk 1 0 2 E2\nwalk 2 0 2 S2\nwalk 3 2 2 E2\nwalk 4 4 2 N2\nwalk 5 4 2 S2\norder 0 0\norder 1 0 1\norder 2 1\norder 3 1 0\norder 4 1\norder 5 0\ncost 1\nrules 0\nparts 1\npart 1 1 3\nsplit 1 2\ntake 0\nsplit 3 2\ntake 1\nclose 0\ntake 0\nclose 0\ntake 1\nclose 0\n",
    b"octimap 2\ngraph 7 1 2\nimportance 1 2 4294967295 16\nwalk 0 -10000 2 NE3 E1 SW2\norder 0 4294967295 1\ncost 1000000000000000\nrules 0\nparts 0\n",
];

#[test]
fn reads_and_writes(rt: HostRuntime) -> Result<(), Fail> {
    let alloc = rt.alloc();
    for text in TEXTS {
        let certificate = read_certificate(alloc, text).ok().ok_or("a certificate")?;
        let written = write_certificate(alloc, &certificate)?;
        let shown = written.as_slice();
        assert_eq!(rt; shown, text);
    }
    Ok(())
}
