//! What is wrong with the cells of two buffers and a wire.

use crate::texts::{CELLS, Case, ONE_NET, SYMBOL, WIRE, is_case};
use layout_check::Finding;
use std::test::Fail;

/// Layouts of two buffers in one net.
const CASES: [Case; 11] = [
    ("nothing is wrong", ONE_NET, &[SYMBOL, CELLS, WIRE], &[]),
    // A pin in the middle of its one column stands there when its cell is mirrored.
    (
        "a mirrored cell is a copy",
        ONE_NET,
        &[
            SYMBOL,
            "91 u2; C 1 M X T 1600 800; 91 u1; C 1 T 0 800; ",
            WIRE,
        ],
        &[],
    ),
    (
        "a cell is missing",
        ONE_NET,
        &[SYMBOL, "91 u1; C 1 T 0 800; C 1 T 800 800; ", WIRE],
        &[Finding::Missing(1)],
    ),
    (
        "a cell is doubled",
        ONE_NET,
        &[
            SYMBOL,
            CELLS,
            "91 u1; C 1 T 1600 800; 91 u1; C 1 T 2400 800; ",
            WIRE,
        ],
        &[Finding::Doubled(0, 2), Finding::Doubled(0, 3)],
    ),
    // The pairs of a name stand together, by the first cells of names.
    (
        "two cells are doubled",
        ONE_NET,
        &[
            SYMBOL,
            CELLS,
            "91 u2; C 1 T 1600 800; 91 u1; C 1 T 2400 800; 91 u2; C 1 T 3200 800; ",
            WIRE,
        ],
        &[
            Finding::Doubled(0, 3),
            Finding::Doubled(1, 2),
            Finding::Doubled(1, 4),
        ],
    ),
    (
        "a cell is strange",
        ONE_NET,
        &[SYMBOL, CELLS, "91 u3; C 1 T 1600 800; ", WIRE],
        &[Finding::Strange(2)],
    ),
    (
        "a renamed cell is strange and one is missing",
        ONE_NET,
        &[SYMBOL, "91 u3; C 1 T 0 800; 91 u2; C 1 T 800 800; ", WIRE],
        &[Finding::Missing(0), Finding::Strange(0)],
    ),
    // The pin of the second symbol is shorter by a unit.
    (
        "a cell is drawn otherwise",
        ONE_NET,
        &[
            SYMBOL,
            "DS 2 1 1; 9 BUF; L XP; B 800 4000 400 2000; L NP; B 300 300 400 3850; DF;",
            "91 u1; C 1 T 0 800; 91 u2; C 2 T 800 800; ",
            WIRE,
        ],
        &[Finding::Drawing(1)],
    ),
    (
        "a cell with a shape more",
        ONE_NET,
        &[
            SYMBOL,
            "DS 2 1 1; 9 BUF; L XP; B 800 4000 400 2000; L NP; B 300 400 400 3800; L NM; B 300 300 400 2000; DF;",
            "91 u1; C 2 T 0 800; 91 u2; C 1 T 800 800; ",
            WIRE,
        ],
        &[Finding::Drawing(0)],
    ),
    (
        "a cell of another symbol",
        ONE_NET,
        &[
            SYMBOL,
            "DS 2 1 1; 9 BUG; L XP; B 800 4000 400 2000; L NP; B 300 400 400 3800; DF;",
            "91 u1; C 2 T 0 800; 91 u2; C 1 T 800 800; ",
            WIRE,
        ],
        &[Finding::Drawing(0)],
    ),
    // Turned by half, the outline stands as before.
    (
        "a turned cell is no copy",
        ONE_NET,
        &[
            SYMBOL,
            "91 u1; C 1 T 0 800; 91 u2; C 1 R -1 0 T 1600 4800; ",
            WIRE,
        ],
        &[Finding::Drawing(1)],
    ),
];

#[test]
fn what_is_wrong_with_cells(rt: HostRuntime) -> Result<(), Fail> {
    for (name, calls, pieces, want) in CASES {
        assert!(rt; is_case(rt.alloc(), calls, pieces, want)?, "{name}");
    }
    Ok(())
}
