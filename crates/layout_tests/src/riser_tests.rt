//! Risers and feeds of rows whose cells have several heights, under the sample rules: columns and tracks of 8 units, pins 4 high, vertical wires 3 wide, and a unit of 200 half centimicrons.
//! A channel of n nets is 8 * (2n + 1) units high. INV, BUF, THR, DRV and TRI are 40 high, MID 42, and TAL and INT 80.
//!
//! A riser in column c for a cell of height k, in a row of height h that stands at b, lies in x from 1600c + 500 to 1600c + 1100 and in y from 200 * (b + k - 4) to 200 * (b + h).

use crate::support::{Rowed, layout_for};
use channel_stack::Placed;
use geom_core::Items;
use std::alloc::{AllocError, Global};
use std::test::Fail;
use wire_geom::Drawn;

/// Calls, into how many rows they go, whether the cells are mirrored, the lower edges and the heights of the rows in units, and the risers of each row with their nets, each row ended by a bar.
struct Risen {
    calls: &'static str,
    rows: u32,
    mirrored: bool,
    bases: &'static [u32],
    heights: &'static [u32],
    risers: &'static str,
}

const RISEN: [Risen; 12] = [
    // No net below: a channel of 8. The riser goes from 8 + 36 to 8 + 80.
    Risen {
        calls: "u1 BUF n; u2 TAL n;",
        rows: 1,
        mirrored: false,
        bases: &[8],
        heights: &[80],
        risers: "1: 500 8800 1100 17600, | ",
    },
    // A pin below a high cell: the net crosses its row by a feed in column 0, before the lower cell, and channel 0 is 24 high. From 24 + 36 to 24 + 80.
    Risen {
        calls: "u1 BUF n; u2 INT n;",
        rows: 1,
        mirrored: false,
        bases: &[24],
        heights: &[80],
        risers: "1: 2100 12000 2700 20800, | ",
    },
    // A row that is higher by 2 units, less than a wire is wide: from 8 + 36 to 8 + 42.
    Risen {
        calls: "u1 BUF n; u2 MID n;",
        rows: 1,
        mirrored: false,
        bases: &[8],
        heights: &[42],
        risers: "1: 500 8800 1100 10000, | ",
    },
    // Three heights: each riser begins 4 units below its own cell's top, at 44 and at 46.
    Risen {
        calls: "u1 BUF n; u2 MID n; u3 TAL n;",
        rows: 1,
        mirrored: false,
        bases: &[8],
        heights: &[80],
        risers: "1: 500 8800 1100 17600, 1: 2100 9200 2700 17600, | ",
    },
    // Cells of two columns, in 0 and 1 and in 2 and 3, with net 2 above in the second of each.
    Risen {
        calls: "u DRV VDD x n; v DRV VDD y n; w TAL n;",
        rows: 1,
        mirrored: false,
        bases: &[8],
        heights: &[80],
        risers: "2: 2100 8800 2700 17600, 2: 5300 8800 5900 17600, | ",
    },
    // Mirrored, in the first of each.
    Risen {
        calls: "u DRV VDD x n; v DRV VDD y n; w TAL n;",
        rows: 1,
        mirrored: true,
        bases: &[8],
        heights: &[80],
        risers: "2: 500 8800 1100 17600, 2: 3700 8800 4300 17600, | ",
    },
    // Nets 1, 2 and 3 above one cell, of which net 2 has no other pin.
    Risen {
        calls: "u TRI p q r; v TAL p; w TAL r;",
        rows: 1,
        mirrored: false,
        bases: &[8],
        heights: &[80],
        risers: "1: 500 8800 1100 17600, 3: 3700 8800 4300 17600, | ",
    },
    Risen {
        calls: "u TRI p q r; v TAL p; w TAL r;",
        rows: 1,
        mirrored: true,
        bases: &[8],
        heights: &[80],
        risers: "3: 500 8800 1100 17600, 1: 3700 8800 4300 17600, | ",
    },
    // A net that crosses the row by a lower cell's terminal, which has a position at each edge.
    Risen {
        calls: "t THR n; u INV n; v TAL n;",
        rows: 1,
        mirrored: false,
        bases: &[24],
        heights: &[80],
        risers: "1: 500 12000 1100 20800, | ",
    },
    // One that such a cell gives to the channel below alone.
    Risen {
        calls: "t THR n; u INV n; v TAL m;",
        rows: 1,
        mirrored: false,
        bases: &[24],
        heights: &[80],
        risers: "| ",
    },
    // Low cells alone above a row of both: 8, 80, 24 and 40 units.
    Risen {
        calls: "u1 TAL n; u2 BUF n; u3 BUF m; u4 BUF m;",
        rows: 2,
        mirrored: false,
        bases: &[8, 112],
        heights: &[80, 40],
        risers: "1: 2100 8800 2700 17600, | | ",
    },
    // And below it: 8, 40, 24 and 80 units. From 72 + 36 to 72 + 80.
    Risen {
        calls: "u1 BUF m; u2 BUF m; u3 TAL n; u4 BUF n;",
        rows: 2,
        mirrored: false,
        bases: &[8, 72],
        heights: &[40, 80],
        risers: "| 2: 2100 21600 2700 30400, | ",
    },
];

const UNRISEN: [Risen; 5] = [
    // Low cells alone beside high ones alone.
    Risen {
        calls: "u1 BUF n; u2 BUF n; u3 TAL m; u4 TAL m;",
        rows: 2,
        mirrored: false,
        bases: &[8, 72],
        heights: &[40, 80],
        risers: "| | ",
    },
    // The last row has no cells, and is as high as the highest kind: 8, 80, 8, 40 and 8 units below it.
    Risen {
        calls: "u1 TAL p; u2 BUF q;",
        rows: 3,
        mirrored: false,
        bases: &[8, 96, 144],
        heights: &[80, 40, 80],
        risers: "| | | ",
    },
    // Net 1 crosses row 1, which is high, and row 2, which is not, by feeds: 8, 40, 24, 80, 24, 40 and 24 units below row 3.
    Risen {
        calls: "u1 BUF n; u2 INT p; u3 INV q; u4 INV n;",
        rows: 4,
        mirrored: false,
        bases: &[8, 72, 176, 240],
        heights: &[40, 80, 40, 40],
        risers: "| | | | ",
    },
    // One height, that of the lower cells or that of the higher.
    Risen {
        calls: "u1 DRV VDD x n; u2 DRV VDD y n; u3 BUF m; u4 BUF m;",
        rows: 2,
        mirrored: true,
        bases: &[8, 72],
        heights: &[40, 40],
        risers: "| | ",
    },
    Risen {
        calls: "u1 TAL n; u2 TAL n;",
        rows: 1,
        mirrored: false,
        bases: &[8],
        heights: &[80],
        risers: "| ",
    },
];

/// The net and the sides of a rectangle of the vertical layer; else a question mark.
fn riser_text(alloc: Global, riser: &Drawn) -> Result<String, AllocError> {
    if riser.shape.layer.text() != "NP".as_bytes() {
        return String::from_str(alloc, "?");
    }
    let rect = riser.shape.rect;
    format!(in alloc;
        "{}: {} {} {} {}, ",
        riser.net, rect.x0, rect.y0, rect.x1, rect.y1
    )
}

fn push_riser(alloc: Global, text: &mut String, riser: &Drawn) -> Result<(), AllocError> {
    let told = riser_text(alloc, riser)?;
    text.push_str(told.as_str())
}

/// The risers of rows, each row ended by a bar.
fn risers_text(alloc: Global, rows: &[Items<Drawn>]) -> Result<String, AllocError> {
    let mut text = String::new(alloc);
    for row in rows {
        for riser in row.items() {
            push_riser(alloc, &mut text, riser)?;
        }
        text.push_str("| ")?;
    }
    Ok(text)
}

/// Whether rows stand there, are as high, and have these risers.
fn are_risen(alloc: Global, placed: &Placed, wanted: &Risen) -> Result<bool, Fail> {
    let told = risers_text(alloc, placed.risers.items())?;
    Ok(
        placed.row_base.items() == wanted.bases
            && placed.row_height.items() == wanted.heights
            && told.as_str() == wanted.risers,
    )
}

/// Whether the calls of a case are laid out so.
fn is_risen(alloc: Global, case: &Risen) -> Result<bool, Fail> {
    let rowed = Rowed {
        calls: case.calls,
        rows: case.rows,
        mirrored: case.mirrored,
    };
    match layout_for(alloc, rowed)? {
        Some(made) => are_risen(alloc, &made.placed, case),
        None => Ok(false),
    }
}

#[test]
fn risers_lead_from_lower_cells_to_the_top_of_their_row(rt: HostRuntime) -> Result<(), Fail> {
    for case in &RISEN {
        assert!(rt;
            is_risen(rt.alloc(), case)?,
            "{} {}",
            case.calls,
            case.mirrored
        );
    }
    Ok(())
}

#[test]
fn rows_without_cells_lower_than_others_have_no_risers(rt: HostRuntime) -> Result<(), Fail> {
    for case in &UNRISEN {
        assert!(rt; is_risen(rt.alloc(), case)?, "{}", case.calls);
    }
    Ok(())
}
