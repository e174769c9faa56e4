//! Nets of buffers that are open or short.

use crate::texts::{CELLS, Case, ONE_NET, SYMBOL, WIRE, is_case};
use layout_check::Finding;
use std::test::Fail;

/// The wire without its last cut.
const OPEN_WIRE: &str =
    "L NP; B 300 1000 400 5300; B 300 1000 1200 5300; L NM; B 1200 300 800 5600; B 400 400 400 5600; L NP; B 400 400 400 5600; L NC; B 200 200 400 5600; L NM; B 400 400 1200 5600; L NP; B 400 400 1200 5600;";

/// Two more buffers in the row.
const MORE_CELLS: &str = "91 u3; C 1 T 1600 800; 91 u4; C 1 T 2400 800; ";

const CASES: [Case; 5] = [
    (
        "a net is open",
        ONE_NET,
        &[SYMBOL, CELLS, OPEN_WIRE],
        &[Finding::Opened(0, 1)],
    ),
    (
        "nets are short",
        "u1 BUF n1; u2 BUF n2;",
        &[SYMBOL, CELLS, WIRE],
        &[Finding::Short(0, 1)],
    ),
    // Four buffers in a row, of which the wire joins the first two.
    (
        "each net by its first pin",
        "u1 BUF n1; u2 BUF n2; u3 BUF n2; u4 BUF n1;",
        &[SYMBOL, CELLS, MORE_CELLS, WIRE],
        &[
            Finding::Opened(0, 3),
            Finding::Opened(1, 2),
            Finding::Short(0, 1),
        ],
    ),
    (
        "one net of four pins",
        "u1 BUF n1; u2 BUF n1; u3 BUF n1; u4 BUF n1;",
        &[SYMBOL, CELLS, MORE_CELLS, WIRE],
        &[Finding::Opened(0, 2), Finding::Opened(0, 3)],
    ),
    // One wire under four pins.
    (
        "each class by its first pin",
        "u1 BUF n1; u2 BUF n2; u3 BUF n1; u4 BUF n2;",
        &[SYMBOL, CELLS, MORE_CELLS, "L NP; B 3200 400 1600 4800;"],
        &[Finding::Short(0, 1), Finding::Short(0, 3)],
    ),
];

#[test]
fn nets_that_are_open_or_short(rt: HostRuntime) -> Result<(), Fail> {
    for (name, calls, pieces, want) in CASES {
        assert!(rt; is_case(rt.alloc(), calls, pieces, want)?, "{name}");
    }
    Ok(())
}
