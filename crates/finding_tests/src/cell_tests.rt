//! What is told of cells.

use crate::telling::{CELLS, Case, ONE_NET, SYMBOL, WIRE, told_in};
use std::test::Fail;

const CASES: [Case; 12] = [
    (
        "nothing is told of a good layout",
        ONE_NET,
        &[SYMBOL, CELLS, WIRE],
        "",
    ),
    (
        "a missing cell by its module",
        ONE_NET,
        &[SYMBOL, "91 u1; C 1 T 0 800; C 1 T 800 800;\n", WIRE],
        "Missing u2: no cell has the name of this instance of BUF\n",
    ),
    (
        "names that differ in case",
        ONE_NET,
        &[SYMBOL, "91 u1; C 1 T 0 800;\n91 U2; C 1 T 800 800;\n", WIRE],
        "Missing u2: no cell has the name of this instance of BUF; that of the cell U2 differs in case alone [o.cif:3]\nStrange U2: no instance has the name of this cell of symbol BUF, XP (8.0, 8.0)-(16.0, 48.0); that of u2 differs in case alone [o.cif:3]\n",
    ),
    (
        "a doubled cell by both places",
        ONE_NET,
        &[SYMBOL, CELLS, "91 u1; C 1 T 1600 800;\n", WIRE],
        "Doubled u1: two cells have this name, XP (0.0, 8.0)-(8.0, 48.0) and XP (16.0, 8.0)-(24.0, 48.0) [o.cif:2, o.cif:4]\n",
    ),
    (
        "a strange cell by its place",
        ONE_NET,
        &[SYMBOL, CELLS, "91 u3; C 1 T 1600 800;\n", WIRE],
        "Strange u3: no instance has the name of this cell of symbol BUF, XP (16.0, 8.0)-(24.0, 48.0) [o.cif:4]\n",
    ),
    (
        "a pin of another size",
        ONE_NET,
        &[
            SYMBOL,
            "DS 2 1 1; 9 BUF; L XP; B 800 4000 400 2000; L NP; B 300 300 400 3850; DF;\n",
            "91 u1; C 1 T 0 800;\n91 u2; C 2 T 800 800;\n",
            WIRE,
        ],
        "Drawing u2: it has NP (10.5, 45.0)-(13.5, 48.0), and BUF has NP (10.5, 44.0)-(13.5, 48.0) there [o.cif:4]\n",
    ),
    (
        "a shape more",
        ONE_NET,
        &[
            SYMBOL,
            "DS 2 1 1; 9 BUF; L XP; B 800 4000 400 2000; L NM; B 300 300 400 2000; L NP; B 300 400 400 3800; DF;\n",
            "91 u1; C 2 T 0 800;\n91 u2; C 1 T 800 800;\n",
            WIRE,
        ],
        "Drawing u1: BUF has no NM (2.5, 26.5)-(5.5, 29.5) [o.cif:3]\n",
    ),
    (
        "a shape is lacking",
        ONE_NET,
        &[
            SYMBOL,
            "DS 2 1 1; 9 BUF; L XP; B 800 4000 400 2000; DF;\n",
            "91 u1; C 2 M X T 800 800;\n91 u2; C 1 T 800 800;\n",
            WIRE,
        ],
        "Drawing u1: it lacks NP (2.5, 44.0)-(5.5, 48.0) of BUF [o.cif:3]\n",
    ),
    (
        "another symbol",
        ONE_NET,
        &[
            SYMBOL,
            "DS 2 1 1; 9 BUG; L XP; B 800 4000 400 2000; L NP; B 300 400 400 3800; DF;\n",
            "91 u1; C 2 T 0 800; 91 u2; C 1 T 800 800;\n",
            WIRE,
        ],
        "Drawing u1: its symbol is BUG, and the instance is one of BUF [o.cif:3]\n",
    ),
    (
        "a turned cell",
        ONE_NET,
        &[
            SYMBOL,
            "91 u1; C 1 T 0 800;\n91 u2; C 1 R -1 0 T 1600 4800;\n",
            WIRE,
        ],
        "Drawing u2: it is turned by 180 degrees, and cells stand upright, mirrored by M X at most [o.cif:3]\n",
    ),
    (
        "a cell upside down",
        ONE_NET,
        &[
            SYMBOL,
            "91 u1; C 1 T 0 800;\n91 u2; C 1 M Y T 800 4800;\n",
            WIRE,
        ],
        "Drawing u2: it is upside down, and cells stand upright, mirrored by M X at most [o.cif:3]\n",
    ),
    (
        "where a cell is wrong nets are not told",
        "u1 BUF n1;",
        &[SYMBOL, CELLS, WIRE, "L NM; B 100 1000 5000 5000;\n"],
        "Strange u2: no instance has the name of this cell of symbol BUF, XP (8.0, 8.0)-(16.0, 48.0) [o.cif:3]\nNarrow 13: NM (49.5, 45.0)-(50.5, 55.0) is 1.0 by 10.0 um, 3.0 each way wanted [o.cif:8]\n",
    ),
];

#[test]
fn what_is_told_of_cells(rt: HostRuntime) -> Result<(), Fail> {
    for (name, calls, pieces, want) in CASES {
        let Some(told) = told_in(rt.alloc(), calls, pieces)? else {
            assert!(rt; false, "{name}: no layout");
            return Ok(());
        };
        assert_eq!(rt; told.as_str(), want, "{name}");
    }
    Ok(())
}
