//! Layouts whose shapes are merged, with those of the same areas that they stand for, told by hand.

ghost use Rattle.layout_merge.specs.Near.{IsMergeable};
ghost use Rattle.std.specs.Prelude.{IfOk, IfSome};

use crate::texts::{CELLS, ONE_NET, SYMBOL, layout_of, sampled};
use geom_core::{Cell, Layout};
use layout_check::check;
use layout_merge::merge_layout;
use samples::{BUFFER, sample_rules};
use std::alloc::{AllocError, Global};
use std::test::Fail;

/// The symbol of BUF as a tool may write it: its layers in another order, and the pin in two strips.
const STRIPS: &str =
    "DS 1 1 1; 9 BUF; L NP; B 300 200 400 3900; B 300 200 400 3700; L XP; B 800 4000 400 2000; DF;";

/// The wire above two buffers in strips: of each pad what lies below the wire between them, that wire, and what lies above it; and the verticals below the pads alone.
const WIRE_IN_STRIPS: &str =
    "L NC; B 200 200 400 5600; B 200 200 1200 5600; L NP; B 400 400 400 5600; B 300 600 400 5100; B 400 400 1200 5600; B 300 600 1200 5100; L NM; B 400 50 400 5775; B 400 50 1200 5775; B 1200 300 800 5600; B 400 50 400 5425; B 400 50 1200 5425;";

/// The same wire, merged.
const MERGED_WIRE: &str =
    "L NM; B 400 400 400 5600; B 400 400 1200 5600; B 1200 300 800 5600; L NP; B 300 1000 400 5300; B 300 1000 1200 5300; B 400 400 400 5600; B 400 400 1200 5600; L NC; B 200 200 400 5600; B 200 200 1200 5600;";

/// A symbol that is no kind of the design, as a feed's, with a name that a tool made up.
const FEED: &str = "DS 2 1 1; 9 2; L NP; B 300 4000 400 2000; L XP; B 800 4000 400 2000; DF;";

/// What a layout has, in pieces of CIF, the layout that it stands for, and whether nothing is wrong with that.
struct Case {
    pieces: &'static [&'static str],
    merged: &'static [&'static str],
    good: bool,
}

const CASES: [Case; 7] = [
    Case {
        pieces: &[STRIPS, CELLS, WIRE_IN_STRIPS],
        merged: &[SYMBOL, CELLS, MERGED_WIRE],
        good: true,
    },
    // A mirrored cell, and cells in another order, behind the wire.
    Case {
        pieces: &[
            STRIPS,
            WIRE_IN_STRIPS,
            "91 u2; C 1 M X T 1600 800; 91 u1; C 1 T 0 800;",
        ],
        merged: &[
            SYMBOL,
            "91 u2; C 1 M X T 1600 800; 91 u1; C 1 T 0 800;",
            MERGED_WIRE,
        ],
        good: true,
    },
    // What covers other areas than the drawing stays as it is, here a pin that is a unit longer.
    Case {
        pieces: &[
            "DS 1 1 1; 9 BUF; L NP; B 300 200 400 3900; B 300 300 400 3650; L XP; B 800 4000 400 2000; DF;",
            CELLS,
            WIRE_IN_STRIPS,
        ],
        merged: &[
            "DS 1 1 1; 9 BUF; L NP; B 300 200 400 3900; B 300 300 400 3650; L XP; B 800 4000 400 2000; DF;",
            CELLS,
            MERGED_WIRE,
        ],
        good: false,
    },
    // A call of another symbol is no cell, whatever a tool has named it: its wire is merged with the others, and its outline stays.
    Case {
        pieces: &[
            SYMBOL,
            FEED,
            "91 u1; C 1 T 0 800; 91 2_0; C 2 T 1600 800; 91 u2; C 1 T 800 800;",
            WIRE_IN_STRIPS,
        ],
        merged: &[
            SYMBOL,
            CELLS,
            "L NM; B 400 400 400 5600; B 400 400 1200 5600; B 1200 300 800 5600; L NP; B 300 4000 2000 2800;",
            "B 300 1000 400 5300; B 300 1000 1200 5300; B 400 400 400 5600; B 400 400 1200 5600; L NC; B 200 200 400 5600; B 200 200 1200 5600;",
            "L XP; B 800 4000 2000 2800;",
        ],
        good: true,
    },
    // But one that bears the name of an instance is a cell.
    Case {
        pieces: &[
            SYMBOL,
            FEED,
            "91 u1; C 1 T 0 800; 91 u2; C 2 T 800 800;",
            WIRE_IN_STRIPS,
        ],
        merged: &[
            SYMBOL,
            FEED,
            "91 u1; C 1 T 0 800; 91 u2; C 2 T 800 800;",
            MERGED_WIRE,
        ],
        good: false,
    },
    // Outlines and shapes of layers that the rules don't name stay as they are, in their order.
    Case {
        pieces: &[
            "L XP; B 400 400 0 0; L ZZ; B 400 400 0 0; B 400 400 200 0; L XP; B 400 400 200 0; L NM; B 400 400 200 0; B 400 400 0 0;",
        ],
        merged: &[
            "L NM; B 600 400 100 0; L XP; B 400 400 0 0; L ZZ; B 400 400 0 0; B 400 400 200 0; L XP; B 400 400 200 0;",
        ],
        good: false,
    },
    Case {
        pieces: &[],
        merged: &[],
        good: false,
    },
];

// The layout of a text of CIF in pieces.
fn layout_of_pieces(alloc: Global, pieces: &[&str]) -> Result<Option<Layout>, AllocError>
    ensures { IfOk result (λ found. IfSome found IsMergeable) }
{
    let mut text = String::new(alloc);
    for piece in pieces {
        text.push_str(piece)?;
    }
    text.push_str("E")?;
    layout_of(alloc, text.as_bytes())
}

fn is_cell(a: &Cell, b: &Cell) -> bool {
    let names = a.name.items() == b.name.items() && a.symbol.items() == b.symbol.items();
    names && a.turn == b.turn && a.first == b.first && a.count == b.count
}

// Whether two layouts have the same cells and shapes.
fn is_same(a: &Layout, b: &Layout) -> bool {
    let ours = a.cells.items();
    let theirs = b.cells.items();
    if ours.len() != theirs.len() {
        return false;
    }
    for n in 0..ours.len() {
        if n < theirs.len() && !is_cell(&ours[n], &theirs[n]) {
            return false;
        }
    }
    a.shapes.items() == b.shapes.items()
}

fn holds(alloc: Global, case: &Case) -> Result<bool, AllocError> {
    let rules = sample_rules(alloc)?;
    let Some(design) = sampled(alloc, BUFFER, ONE_NET)? else {
        return Ok(false);
    };
    let Some(layout) = layout_of_pieces(alloc, case.pieces)? else {
        return Ok(false);
    };
    let Some(wanted) = layout_of_pieces(alloc, case.merged)? else {
        return Ok(false);
    };
    let merged = merge_layout(alloc, layout, &design, &rules)?;
    let findings = check(alloc, &merged, &design, &rules)?;
    Ok(is_same(&merged, &wanted) && findings.is_empty() == case.good)
}

#[test]
fn layouts_of_the_same_areas(rt: HostRuntime) -> Result<(), Fail> {
    for case in &CASES {
        assert!(rt; holds(rt.alloc(), case)?);
    }
    Ok(())
}
