//! Where channels, rows, cells, feeds and wires lie, under the sample rules: columns and tracks of 8 units, cells 40 high, and a unit of 200 half
//! centimicrons. A channel of n nets has 2n tracks and is 8 * (2n + 1) units high, and n columns wider than the widest row.

use crate::support::{Rowed, is_made_of, layout_for};
use channel_stack::{Placed, PlacedItem};
use feed_cells::Item;
use geom_core::Items;
use std::alloc::{AllocError, Global};
use std::test::Fail;
use wire_geom::Drawn;

/// Calls in rows, the lower edges of channels and rows in units, the width and the height in centimicrons, and the items of each row with their places in half
/// centimicrons, each row ended by a bar.
struct Stacked {
    rowed: Rowed,
    channels: &'static [u32],
    rows: &'static [u32],
    width: u64,
    height: u64,
    cells: &'static str,
}

const STACKED: [Stacked; 5] = [
    // One net in channel 1 alone: 8, 40 and 24 units. The widest channel has 2 + 1 columns.
    Stacked {
        rowed: Rowed {
            calls: "u1 BUF n; u2 BUF n;",
            rows: 1,
            mirrored: false,
        },
        channels: &[0, 48],
        rows: &[8],
        width: 2400,
        height: 7200,
        cells: "0 at 0 1600, 1 at 1600 1600, | ",
    },
    // One net across its own row by a feed, in both channels: 24, 40 and 24 units, and 3 + 1 columns.
    Stacked {
        rowed: Rowed {
            calls: "u1 BUF n; u2 INV n;",
            rows: 1,
            mirrored: false,
        },
        channels: &[0, 64],
        rows: &[24],
        width: 3200,
        height: 8800,
        cells: "feed 1 at 0 4800, 0 at 1600 4800, 1 at 3200 4800, | ",
    },
    // Two crossed nets in channel 1: 8, 40, 40, 40 and 8 units, and 2 + 2 columns.
    Stacked {
        rowed: Rowed {
            calls: "u1 BUF b; u2 BUF a; u3 INV a; u4 INV b;",
            rows: 2,
            mirrored: false,
        },
        channels: &[0, 48, 128],
        rows: &[8, 88],
        width: 3200,
        height: 13600,
        cells: "0 at 0 1600, 1 at 1600 1600, | 2 at 0 17600, 3 at 1600 17600, | ",
    },
    // One net from row 0 to row 3: channels of 8, 24, 24, 24 and 8 units, and 2 + 1 columns.
    Stacked {
        rowed: Rowed {
            calls: "u1 BUF n; u2 INV p; u3 INV q; u4 INV n;",
            rows: 4,
            mirrored: false,
        },
        channels: &[0, 48, 112, 176, 240],
        rows: &[8, 72, 136, 200],
        width: 2400,
        height: 24800,
        cells: "0 at 0 1600, | feed 1 at 0 14400, 1 at 1600 14400, | feed 1 at 0 27200, 2 at 1600 27200, | 3 at 0 40000, | ",
    },
    // Mirrored cells of four columns, by their right edges, and a feed for net 2 before the second: columns 0 to 3, 4, 5 to 8 and 9 to 12. Two nets stand in
    // channel 0 and one in channel 1: 40, 40 and 24 units, and 13 + 2 columns.
    Stacked {
        rowed: Rowed {
            calls: "u LEAN n k p; v LEAN n r s; w LEAN q t k;",
            rows: 1,
            mirrored: true,
        },
        channels: &[0, 80],
        rows: &[40],
        width: 12000,
        height: 10400,
        cells: "mirrored 0 at 6400 8000, feed 2 at 6400 8000, mirrored 1 at 14400 8000, mirrored 2 at 20800 8000, | ",
    },
];

/// What stands before the number of a cell, whose seat and whose place are mirrored or not.
fn cell_word(seat: bool, place: bool) -> &'static str {
    if seat != place {
        "turned "
    } else if place {
        "mirrored "
    } else {
        ""
    }
}

/// What stands before the number of an item, whose place is mirrored or not.
fn item_word(item: Item, place: bool) -> &'static str {
    match item {
        Item::Cell(seat) => cell_word(seat.mirror, place),
        Item::Feed(_) if place => "mirrored feed ",
        Item::Feed(_) => "feed ",
    }
}

/// The number of an instance, or of the net of a feed.
fn item_number(item: Item) -> u32 {
    match item {
        Item::Cell(seat) => seat.instance,
        Item::Feed(net) => net,
    }
}

/// An item, and its place.
fn item_text(alloc: Global, placed: &PlacedItem) -> Result<String, AllocError> {
    let word = item_word(placed.item, placed.place.mirror);
    let number = item_number(placed.item);
    let (dx, dy) = (placed.place.dx, placed.place.dy);
    format!(in alloc; "{word}{number} at {dx} {dy}, ")
}

fn push_item(alloc: Global, text: &mut String, placed: &PlacedItem) -> Result<(), AllocError> {
    let item = item_text(alloc, placed)?;
    text.push_str(item.as_str())
}

/// The items of rows, each row ended by a bar.
fn cells_text(alloc: Global, rows: &[Items<PlacedItem>]) -> Result<String, AllocError> {
    let mut text = String::new(alloc);
    for row in rows {
        for placed in row.items() {
            push_item(alloc, &mut text, placed)?;
        }
        text.push_str("| ")?;
    }
    Ok(text)
}

/// Whether these are the items of rows.
fn are_cells(alloc: Global, rows: &[Items<PlacedItem>], wanted: &str) -> Result<bool, Fail> {
    let told = cells_text(alloc, rows)?;
    Ok(told.as_str() == wanted)
}

/// Whether these are the edges and the sizes of a case.
fn have_sizes(placed: &Placed, wanted: &Stacked) -> bool {
    placed.channel_base.items() == wanted.channels
        && placed.row_base.items() == wanted.rows
        && placed.width == wanted.width
        && placed.height == wanted.height
        && placed.shapes.items().len() == wanted.channels.len()
}

/// Whether these are the edges, the sizes and the items of a case.
fn are_stacked(alloc: Global, placed: &Placed, wanted: &Stacked) -> Result<bool, Fail> {
    Ok(have_sizes(placed, wanted) && are_cells(alloc, placed.cells.items(), wanted.cells)?)
}

/// Whether the calls of a case are stacked so.
fn is_stacked(alloc: Global, case: &Stacked) -> Result<bool, Fail> {
    match layout_for(alloc, case.rowed)? {
        Some(made) => are_stacked(alloc, &made.placed, case),
        None => Ok(false),
    }
}

#[test]
fn rows_and_channels_lie_on_one_another(rt: HostRuntime) -> Result<(), Fail> {
    for case in &STACKED {
        assert!(rt; is_stacked(rt.alloc(), case)?, "{}", case.rowed.calls);
    }
    Ok(())
}

/// The wires of a BUF below an INV of one net, in half centimicrons: the channel lies from 48 to 72 units, its tracks at 56 and 64, its two columns in x 4 and 12.
/// Wires are 3 wide, pads 4 and cuts 2.
const JOINED: &[&str] = &[
    // The wire up from the lower edge to half a pad above track 1, and that from half a pad below track 2 to the upper edge.
    "NP 500 9600 1100 11600, NP 500 12400 1100 14400, ",
    // The wire in the added column, from track 1 to track 2.
    "NP 2100 10800 2700 13200, ",
    // The two tracks, from column 0 to column 1.
    "NM 400 10900 2800 11500, NM 400 12500 2800 13100, ",
    // The vias of the pins: two pads and a cut on track 1, and on track 2.
    "NM 400 10800 1200 11600, NP 400 10800 1200 11600, NC 600 11000 1000 11400, ",
    "NM 400 12400 1200 13200, NP 400 12400 1200 13200, NC 600 12600 1000 13000, ",
    // The same in the added column.
    "NM 2000 10800 2800 11600, NP 2000 10800 2800 11600, NC 2200 11000 2600 11400, ",
    "NM 2000 12400 2800 13200, NP 2000 12400 2800 13200, NC 2200 12600 2600 13000, ",
];

/// The layer and the sides of a rectangle of net 1; else a question mark.
fn drawn_text(alloc: Global, drawn: &Drawn) -> Result<String, AllocError> {
    let rect = drawn.shape.rect;
    match (drawn.net, str::from_utf8(drawn.shape.layer.text())) {
        (1, Ok(layer)) => format!(in alloc;
            "{layer} {} {} {} {}, ",
            rect.x0, rect.y0, rect.x1, rect.y1
        ),
        _ => String::from_str(alloc, "?"),
    }
}

fn push_drawn(alloc: Global, text: &mut String, drawn: &Drawn) -> Result<(), AllocError> {
    let wire = drawn_text(alloc, drawn)?;
    text.push_str(wire.as_str())
}

/// The rectangles of a channel.
fn wires_text(alloc: Global, drawn: &[Drawn]) -> Result<String, AllocError> {
    let mut text = String::new(alloc);
    for wire in drawn {
        push_drawn(alloc, &mut text, wire)?;
    }
    Ok(text)
}

/// Whether a channel has these wires.
fn has_wires(alloc: Global, drawn: &[Drawn], pieces: &[&str]) -> Result<bool, Fail> {
    let told = wires_text(alloc, drawn)?;
    Ok(is_made_of(told.as_bytes(), pieces))
}

/// Whether the middle one of three channels has these wires, and the others have none.
fn has_middle_wires(alloc: Global, placed: &Placed, pieces: &[&str]) -> Result<bool, Fail> {
    match placed.shapes.items() {
        [below, middle, above] if below.items().is_empty() && above.items().is_empty() => {
            has_wires(alloc, middle.items(), pieces)
        }
        _ => Ok(false),
    }
}

/// Whether the middle one of the three channels of these calls has these wires.
fn is_wired(alloc: Global, rowed: Rowed, pieces: &[&str]) -> Result<bool, Fail> {
    match layout_for(alloc, rowed)? {
        Some(made) => has_middle_wires(alloc, &made.placed, pieces),
        None => Ok(false),
    }
}

#[test]
fn wires_lie_on_the_base_of_their_channel(rt: HostRuntime) -> Result<(), Fail> {
    let rowed = Rowed {
        calls: "u1 BUF n; u2 INV n;",
        rows: 2,
        mirrored: false,
    };
    assert!(rt; is_wired(rt.alloc(), rowed, JOINED)?);
    Ok(())
}
