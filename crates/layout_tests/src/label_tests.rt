//! Texts with labels, byte for byte, and the layouts that they read as.

use crate::support::{Rowed, is_made_of, layout_for};
use cif_reader::{ExpandFault, expand};
use cif_text::{CifFault, read_commands};
use geom_core::{Cell, Layout};
use std::alloc::{AllocError, Global};
use std::test::Fail;

/// Two INV of one net, one above the other, under the sample rules, with a feed before u1, as the text without labels has them: a row is 40 units high, row 0 lies from
/// 24 to 64 and row 1 from 88 to 128, and an INV is 8 wide, with its pin of 3 by 4 at its lower edge. The net's first pin is that of u1. Lengths below are in units.
const TWO_ROWS: &[&str] = &[
    "(cellroute 1);\nDS 1 1 1;\n9 INV;\nL XP;\nB 800 4000 400 2000;\nL NP;\nB 300 400 400 200;\nDF;\n",
    "DS 2 1 1;\nL XP;\nB 800 4000 400 2000;\nL NP;\nB 300 4000 400 2000;\nDF;\n",
    "L NP;\nB 300 1000 400 1900;\nB 300 1000 1200 1900;\nL NM;\nB 1200 300 800 1600;\n",
    "B 400 400 400 1600;\nL NP;\nB 400 400 400 1600;\nL NC;\nB 200 200 400 1600;\n",
    "L NM;\nB 400 400 1200 1600;\nL NP;\nB 400 400 1200 1600;\nL NC;\nB 200 200 1200 1600;\n",
    // A feed has no label. That of u1 stands in the middle of its outline, from 8 to 16 and from 24 to 64, and that of n in its pin, from 24 to 28 in x 12.
    "C 2 T 0 2400;\n91 u1;\nC 1 T 800 2400;\nL XP;\n94 u1 1200 4400;\nL NP;\n94 n 1200 2600;\n",
    // The last label has left the layer NP.
    "B 300 1000 400 6900;\nB 300 1000 400 8300;\nB 300 1200 2000 7600;\n",
    "L NM;\nB 2000 300 1200 7200;\nB 2000 300 1200 8000;\n",
    "B 400 400 400 7200;\nL NP;\nB 400 400 400 7200;\nL NC;\nB 200 200 400 7200;\n",
    "L NM;\nB 400 400 400 8000;\nL NP;\nB 400 400 400 8000;\nL NC;\nB 200 200 400 8000;\n",
    "L NM;\nB 400 400 2000 7200;\nL NP;\nB 400 400 2000 7200;\nL NC;\nB 200 200 2000 7200;\n",
    "L NM;\nB 400 400 2000 8000;\nL NP;\nB 400 400 2000 8000;\nL NC;\nB 200 200 2000 8000;\n",
    // The pin of u2 is not the first one of its net. Its outline lies from 0 to 8 and from 88 to 128.
    "91 u2;\nC 1 T 0 8800;\nL XP;\n94 u2 400 10800;\nE\n",
];

/// A DRV of two columns, mirrored, from 0 to 16 and from 8 to 48: `vdd` is power and has no label; `a` is in column 0 below, so in x 12 from 8 to 12; `y` is in column 1
/// above, so in x 4 from 44 to 48.
const MIRRORED: &[&str] = &[
    "(cellroute 1);\nDS 1 1 1;\n9 DRV;\nL XP;\nB 1600 4000 800 2000;\nL NP;\nB 300 400 400 200;\nB 300 400 1200 3800;\nDF;\n",
    "91 u;\nC 1 M X T 1600 800;\nL XP;\n94 u 800 2800;\nL NP;\n94 x 1200 1000;\n94 y 400 4600;\nE\n",
];

/// The layout that a text reads as; None where it reads as none.
fn layout_read(alloc: Global, text: &[u8]) -> Result<Option<Layout>, AllocError> {
    if text.len() >= 1 << 24 {
        return Ok(None);
    }
    let commands = match read_commands(alloc, text) {
        Ok(commands) => commands,
        Err(CifFault::Bad { .. }) => return Ok(None),
        Err(CifFault::Memory) => return Err(AllocError),
    };
    match expand(alloc, commands.as_slice()) {
        Ok(layout) => Ok(Some(layout)),
        Err(ExpandFault::Bad { .. }) => Ok(None),
        Err(ExpandFault::Memory) => Err(AllocError),
    }
}

/// Whether two cells are the same.
fn are_same_cells(a: &Cell, b: &Cell) -> bool {
    a.name == b.name
        && a.symbol == b.symbol
        && a.turn == b.turn
        && a.first == b.first
        && a.count == b.count
}

/// Whether two layouts are the same, and have cells.
fn are_same(a: &Layout, b: &Layout) -> bool {
    let (first, second) = (a.cells.items(), b.cells.items());
    !first.is_empty()
        && first.len() == second.len()
        && first.iter().zip(second).all(|(x, y)| are_same_cells(x, y))
        && a.shapes.items() == b.shapes.items()
}

/// Whether both texts read as layouts, which are the same.
fn read_the_same(alloc: Global, bare: &[u8], labelled: &[u8]) -> Result<bool, AllocError> {
    let Some(bare) = layout_read(alloc, bare)? else {
        return Ok(false);
    };
    match layout_read(alloc, labelled)? {
        Some(labelled) => Ok(are_same(&bare, &labelled)),
        None => Ok(false),
    }
}

/// Whether the text with labels of a design in rows is made of these pieces, and reads as the layout that the text without them reads as.
fn is_labelled(alloc: Global, rowed: Rowed, pieces: &[&str]) -> Result<bool, Fail> {
    let Some(made) = layout_for(alloc, rowed)? else {
        return Ok(false);
    };
    let (bare, labelled) = (made.texts.bare.as_slice(), made.texts.labelled.as_slice());
    Ok(is_made_of(labelled, pieces) && read_the_same(alloc, bare, labelled)?)
}

#[test]
fn cells_and_nets_have_labels(rt: HostRuntime) -> Result<(), Fail> {
    let rowed = Rowed {
        calls: "u1 INV n; u2 INV n;",
        rows: 2,
        mirrored: false,
    };
    assert!(rt; is_labelled(rt.alloc(), rowed, TWO_ROWS)?);
    Ok(())
}

#[test]
fn labels_of_a_mirrored_cell_stand_in_its_mirrored_shapes(rt: HostRuntime) -> Result<(), Fail> {
    let rowed = Rowed {
        calls: "u DRV VDD x y;",
        rows: 1,
        mirrored: true,
    };
    assert!(rt; is_labelled(rt.alloc(), rowed, MIRRORED)?);
    Ok(())
}
