//! What is told of open and short nets.

use crate::telling::{CELLS, Case, ONE_NET, SYMBOL, TWO_NETS, WIRE, told_in};
use std::test::Fail;

/// The wire without its second cut.
const OPEN_WIRE: &str =
    "L NP; B 300 1000 400 5300; B 300 1000 1200 5300;\nL NM; B 1200 300 800 5600;\nB 400 400 400 5600; L NP; B 400 400 400 5600; L NC; B 200 200 400 5600;\nL NM; B 400 400 1200 5600; L NP; B 400 400 1200 5600;\n";

/// Two more buffers in the row.
const MORE_CELLS: &str = "91 u3; C 1 T 1600 800; 91 u4; C 1 T 2400 800; ";

/// Ten more.
const TEN_CELLS: &str =
    "91 u3; C 1 T 1600 800; 91 u4; C 1 T 2400 800; 91 u5; C 1 T 3200 800; 91 u6; C 1 T 4000 800; 91 u7; C 1 T 4800 800; 91 u8; C 1 T 5600 800; 91 u9; C 1 T 6400 800; 91 u10; C 1 T 7200 800; 91 u11; C 1 T 8000 800; 91 u12; C 1 T 8800 800; ";

/// A wire under the pins of u1 to u6, and one under those of u7 to u12.
const TWO_WIRES: &str = "L NP; B 4400 400 2400 4900; B 4400 400 7200 4900;\n";

/// Twelve buffers in one net.
const TWELVE: &str =
    "u1 BUF n1; u2 BUF n1; u3 BUF n1; u4 BUF n1; u5 BUF n1; u6 BUF n1; u7 BUF n1; u8 BUF n1; u9 BUF n1; u10 BUF n1; u11 BUF n1; u12 BUF n1;";

const CASES: [Case; 4] = [
    (
        "an open net",
        ONE_NET,
        &[SYMBOL, CELLS, OPEN_WIRE],
        "Open u1 y u2 y: net n1 hangs in 2 pieces: u1 y | u2 y; u1 y is NP (2.5, 44.0)-(5.5, 48.0), u2 y is NP (10.5, 44.0)-(13.5, 48.0) [o.cif:2, o.cif:3]\n",
    ),
    (
        "short nets",
        TWO_NETS,
        &[SYMBOL, CELLS, WIRE],
        "Short u1 y u2 y: net n1 and net n2 are joined; u1 y is NP (2.5, 44.0)-(5.5, 48.0), u2 y is NP (10.5, 44.0)-(13.5, 48.0); joined by NP (2.5, 48.0)-(5.5, 58.0), NC (3.0, 55.0)-(5.0, 57.0), NM (2.0, 54.5)-(14.0, 57.5), NC (11.0, 55.0)-(13.0, 57.0), NP (10.5, 48.0)-(13.5, 58.0) [o.cif:2, o.cif:3]\n",
    ),
    (
        "a net in three pieces, that of the finding second",
        "u1 BUF n1; u2 BUF n1; u3 BUF n1; u4 BUF n1;",
        &[SYMBOL, CELLS, MORE_CELLS, WIRE],
        "Open u1 y u3 y: net n1 hangs in 3 pieces: u1 y, u2 y | u3 y | u4 y; u1 y is NP (2.5, 44.0)-(5.5, 48.0), u3 y is NP (18.5, 44.0)-(21.5, 48.0) [o.cif:2, o.cif:4]\nOpen u1 y u4 y: net n1 hangs in 3 pieces: u1 y, u2 y | u4 y | u3 y; u1 y is NP (2.5, 44.0)-(5.5, 48.0), u4 y is NP (26.5, 44.0)-(29.5, 48.0) [o.cif:2, o.cif:4]\n",
    ),
    (
        "eight pins are named, four of a piece",
        TWELVE,
        &[SYMBOL, CELLS, TEN_CELLS, TWO_WIRES],
        "Open u1 y u7 y: net n1 hangs in 2 pieces: u1 y, u2 y, u3 y, u4 y and 2 more | u7 y, u8 y, u9 y, u10 y and 2 more; u1 y is NP (2.5, 44.0)-(5.5, 48.0), u7 y is NP (50.5, 44.0)-(53.5, 48.0) [o.cif:2, o.cif:4]\nOpen u1 y u8 y: net n1 hangs in 2 pieces: u1 y, u2 y, u3 y, u4 y and 2 more | u7 y, u8 y, u9 y, u10 y and 2 more; u1 y is NP (2.5, 44.0)-(5.5, 48.0), u8 y is NP (58.5, 44.0)-(61.5, 48.0) [o.cif:2, o.cif:4]\nOpen u1 y u9 y: net n1 hangs in 2 pieces: u1 y, u2 y, u3 y, u4 y and 2 more | u7 y, u8 y, u9 y, u10 y and 2 more; u1 y is NP (2.5, 44.0)-(5.5, 48.0), u9 y is NP (66.5, 44.0)-(69.5, 48.0) [o.cif:2, o.cif:4]\nOpen u1 y u10 y: net n1 hangs in 2 pieces: u1 y, u2 y, u3 y, u4 y and 2 more | u7 y, u8 y, u9 y, u10 y and 2 more; u1 y is NP (2.5, 44.0)-(5.5, 48.0), u10 y is NP (74.5, 44.0)-(77.5, 48.0) [o.cif:2, o.cif:4]\nOpen u1 y u11 y: net n1 hangs in 2 pieces: u1 y, u2 y, u3 y, u4 y and 2 more | u7 y, u8 y, u9 y, u10 y and 2 more; u1 y is NP (2.5, 44.0)-(5.5, 48.0), u11 y is NP (82.5, 44.0)-(85.5, 48.0) [o.cif:2, o.cif:4]\nOpen u1 y u12 y: net n1 hangs in 2 pieces: u1 y, u2 y, u3 y, u4 y and 2 more | u7 y, u8 y, u9 y, u10 y and 2 more; u1 y is NP (2.5, 44.0)-(5.5, 48.0), u12 y is NP (90.5, 44.0)-(93.5, 48.0) [o.cif:2, o.cif:4]\n",
    ),
];

#[test]
fn what_is_told_of_nets(rt: HostRuntime) -> Result<(), Fail> {
    for (name, calls, pieces, want) in CASES {
        let Some(told) = told_in(rt.alloc(), calls, pieces)? else {
            assert!(rt; false, "{name}: no layout");
            return Ok(());
        };
        assert_eq!(rt; told.as_str(), want, "{name}");
    }
    Ok(())
}
