//! What is wrong with the outlines, wires and cuts of two buffers and a wire, or of further shapes, from number 13 on.

use crate::texts::{CELLS, Case, ONE_NET, SYMBOL, WIRE, is_case};
use layout_check::Finding;
use std::test::Fail;

/// The wire with a horizontal that is 200 high in place of 300.
const NARROW_WIRE: &str =
    "L NP; B 300 1000 400 5300; B 300 1000 1200 5300; L NM; B 1200 200 800 5600; B 400 400 400 5600; L NP; B 400 400 400 5600; L NC; B 200 200 400 5600; L NM; B 400 400 1200 5600; L NP; B 400 400 1200 5600; L NC; B 200 200 1200 5600;";

/// The wire with its last cut 100 to the right of where it should stand.
const BARE_WIRE: &str =
    "L NP; B 300 1000 400 5300; B 300 1000 1200 5300; L NM; B 1200 300 800 5600; B 400 400 400 5600; L NP; B 400 400 400 5600; L NC; B 200 200 400 5600; L NM; B 400 400 1200 5600; L NP; B 400 400 1200 5600; L NC; B 200 200 1300 5600;";

/// A wire that is too close, a narrow one, a bare cut, and an outline that overlaps and is out of row.
const MORE: &str =
    "L NM; B 300 300 800 6100; B 100 1000 5000 5000; L NC; B 200 200 9000 9000; L XP; B 800 4000 1600 2900; ";

const CASES: [Case; 7] = [
    (
        "outlines overlap",
        ONE_NET,
        &[SYMBOL, CELLS, WIRE, "L XP; B 800 4000 1600 2800; "],
        &[Finding::Overlap(2, 13)],
    ),
    (
        "an outline is out of row",
        ONE_NET,
        &[SYMBOL, CELLS, WIRE, "L XP; B 800 4000 2400 2900; "],
        &[Finding::OutOfRow(0, 13), Finding::OutOfRow(2, 13)],
    ),
    (
        "a wire is narrow",
        ONE_NET,
        &[SYMBOL, CELLS, NARROW_WIRE],
        &[Finding::Narrow(6)],
    ),
    (
        "a cut is bare",
        ONE_NET,
        &[SYMBOL, CELLS, BARE_WIRE],
        &[Finding::BareCut(12)],
    ),
    (
        "wires are too close",
        ONE_NET,
        &[SYMBOL, CELLS, WIRE, "L NM; B 300 300 800 6100; "],
        &[
            Finding::Close(6, 13),
            Finding::Close(7, 13),
            Finding::Close(10, 13),
        ],
    ),
    (
        "the kinds in their order",
        "u1 BUF n1; u2 BUF n2;",
        &[SYMBOL, CELLS, WIRE, MORE],
        &[
            Finding::Overlap(2, 16),
            Finding::OutOfRow(0, 16),
            Finding::OutOfRow(2, 16),
            Finding::Narrow(14),
            Finding::Close(6, 13),
            Finding::Close(7, 13),
            Finding::Close(10, 13),
            Finding::BareCut(15),
            Finding::Short(0, 1),
        ],
    ),
    (
        "where something is wrong with cells, what is joined is not asked",
        "u1 BUF n1;",
        &[SYMBOL, CELLS, WIRE, MORE],
        &[
            Finding::Strange(1),
            Finding::Overlap(2, 16),
            Finding::OutOfRow(0, 16),
            Finding::OutOfRow(2, 16),
            Finding::Narrow(14),
            Finding::BareCut(15),
        ],
    ),
];

#[test]
fn what_is_wrong_with_shapes(rt: HostRuntime) -> Result<(), Fail> {
    for (name, calls, pieces, want) in CASES {
        assert!(rt; is_case(rt.alloc(), calls, pieces, want)?, "{name}");
    }
    Ok(())
}
