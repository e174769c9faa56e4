//! What is told of outlines, wires and cuts.

use crate::telling::{CELLS, Case, ONE_NET, SYMBOL, TWO_NETS, WIRE, told_in};
use std::test::Fail;

/// The verticals of the wire, in line 4.
const VERTICALS: &str = "L NP; B 300 1000 400 5300; B 300 1000 1200 5300;\n";

/// The pads and cuts of the wire, in lines 6 and 7.
const PADS: &str =
    "B 400 400 400 5600; L NP; B 400 400 400 5600; L NC; B 200 200 400 5600;\nL NM; B 400 400 1200 5600; L NP; B 400 400 1200 5600; L NC; B 200 200 1200 5600;\n";

/// The same with the second cut a unit to the right of where it should stand.
const BARE_PADS: &str =
    "B 400 400 400 5600; L NP; B 400 400 400 5600; L NC; B 200 200 400 5600;\nL NM; B 400 400 1200 5600; L NP; B 400 400 1200 5600; L NC; B 200 200 1300 5600;\n";

const CASES: [Case; 9] = [
    (
        "outlines that overlap",
        ONE_NET,
        &[SYMBOL, CELLS, WIRE, "L XP; B 800 4000 1600 2800;\n"],
        "Overlap 2 13: XP (8.0, 8.0)-(16.0, 48.0) of cell u2 and XP (12.0, 8.0)-(20.0, 48.0) of no cell share 4.0 by 40.0 um [o.cif:3, o.cif:8]\n",
    ),
    (
        "an outline out of row",
        ONE_NET,
        &[SYMBOL, CELLS, WIRE, "L XP; B 800 4000 2400 2900;\n"],
        "OutOfRow 0 13: XP (0.0, 8.0)-(8.0, 48.0) of cell u1 and XP (20.0, 9.0)-(28.0, 49.0) of no cell have lower edges 1.0 um apart, and share 39.0 um of height [o.cif:2, o.cif:8]\nOutOfRow 2 13: XP (8.0, 8.0)-(16.0, 48.0) of cell u2 and XP (20.0, 9.0)-(28.0, 49.0) of no cell have lower edges 1.0 um apart, and share 39.0 um of height [o.cif:3, o.cif:8]\n",
    ),
    (
        "a narrow wire",
        ONE_NET,
        &[
            SYMBOL,
            CELLS,
            VERTICALS,
            "L NM; B 1200 200 800 5600;\n",
            PADS,
        ],
        "Narrow 6: NM (2.0, 55.0)-(14.0, 57.0) of net n1 is 12.0 by 2.0 um, 3.0 each way wanted [o.cif:5]\n",
    ),
    (
        "a narrow wire below 0, with all decimals",
        ONE_NET,
        &[SYMBOL, CELLS, WIRE, "L NM; B 101 1002 -800 6101;\n"],
        "Narrow 13: NM (-8.505, 56.0)-(-7.495, 66.02) of no net is 1.01 by 10.02 um, 3.0 each way wanted [o.cif:8]\n",
    ),
    (
        "a cut of another size, that nothing holds",
        ONE_NET,
        &[SYMBOL, CELLS, WIRE, "L NC; B 200 150 9000 9000;\n"],
        "Narrow 13: NC (89.0, 89.25)-(91.0, 90.75) of no net is 2.0 by 1.5 um, a square of 2.0 wanted [o.cif:8]\nBareCut 13: NC (89.0, 89.25)-(91.0, 90.75) of no net; no NM holds it, with 1.0 um on each side wanted; no NP holds it, with 1.0 um on each side wanted [o.cif:8]\n",
    ),
    (
        "wires that are too close",
        ONE_NET,
        &[SYMBOL, CELLS, WIRE, "L NM; B 300 300 800 6100;\n"],
        "Close 6 13: NM (2.0, 54.5)-(14.0, 57.5) of net n1 and NM (6.5, 59.5)-(9.5, 62.5) of no net, 2.0 um apart, 3.0 wanted [o.cif:5, o.cif:8]\nClose 7 13: NM (2.0, 54.0)-(6.0, 58.0) of net n1 and NM (6.5, 59.5)-(9.5, 62.5) of no net, 1.5 um apart, 3.0 wanted [o.cif:6, o.cif:8]\nClose 10 13: NM (10.0, 54.0)-(14.0, 58.0) of net n1 and NM (6.5, 59.5)-(9.5, 62.5) of no net, 1.5 um apart, 3.0 wanted [o.cif:7, o.cif:8]\n",
    ),
    (
        "wires of two nets that are too close, in one line",
        TWO_NETS,
        &[
            SYMBOL,
            CELLS,
            "L NP; B 500 400 400 4900; B 300 400 950 4900; B 300 400 1200 4900;\n",
        ],
        "Close 1 5: NP (2.5, 44.0)-(5.5, 48.0) in cell u1 of net n1 and NP (8.0, 47.0)-(11.0, 51.0) of net n2, 2.5 um apart, 3.0 wanted [o.cif:2, o.cif:4]\nClose 4 5: NP (1.5, 47.0)-(6.5, 51.0) of net n1 and NP (8.0, 47.0)-(11.0, 51.0) of net n2, 1.5 um apart, 3.0 wanted [o.cif:4]\n",
    ),
    (
        "a bare cut",
        ONE_NET,
        &[
            SYMBOL,
            CELLS,
            VERTICALS,
            "L NM; B 1200 300 800 5600;\n",
            BARE_PADS,
        ],
        "BareCut 12: NC (12.0, 55.0)-(14.0, 57.0) of net n1; NM encloses it by 0.0 um, 1.0 wanted; NP encloses it by 0.0 um, 1.0 wanted [o.cif:7]\n",
    ),
    (
        "cuts that meet",
        ONE_NET,
        &[
            SYMBOL,
            CELLS,
            WIRE,
            "L NC; B 200 200 5000 5000; B 200 200 5100 5000;\n",
        ],
        "Close 13 14: NC (49.0, 49.0)-(51.0, 51.0) of no net and NC (50.0, 49.0)-(52.0, 51.0) of no net, which meet, 3.0 wanted [o.cif:8]\nBareCut 13: NC (49.0, 49.0)-(51.0, 51.0) of no net; no NM holds it, with 1.0 um on each side wanted; no NP holds it, with 1.0 um on each side wanted [o.cif:8]\nBareCut 14: NC (50.0, 49.0)-(52.0, 51.0) of no net; no NM holds it, with 1.0 um on each side wanted; no NP holds it, with 1.0 um on each side wanted [o.cif:8]\n",
    ),
];

#[test]
fn what_is_told_of_shapes(rt: HostRuntime) -> Result<(), Fail> {
    for (name, calls, pieces, want) in CASES {
        let Some(told) = told_in(rt.alloc(), calls, pieces)? else {
            assert!(rt; false, "{name}: no layout");
            return Ok(());
        };
        assert_eq!(rt; told.as_str(), want, "{name}");
    }
    Ok(())
}
