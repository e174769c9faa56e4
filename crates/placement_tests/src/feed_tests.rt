//! Feeds in rows of one or two cells each, into which the instances go in order.

ghost use Rattle.row_model.specs.Rows.{ArePlaced};
ghost use Rattle.std.specs.Prelude.{◌<◌, ◌≤◌};

use crate::first_rows::fed_rows_of;
use design_model::Design;
use feed_cells::{Crossing, FedRows, Item, spans_of};
use geom_core::Items;
use row_model::{Rows, start};
use samples::{CELLS, designed};
use std::alloc::{AllocError, Global};
use std::test::Fail;
use tech_rules::StartBy;

/// The crossing of a net; None where there is no such net.
fn crossing(design: &Design, rows: &Rows, net: u32) -> Option<Crossing>
    requires { ArePlaced design.now rows.now }
{
    if net == 0 || net as usize > design.nets.items().len() {
        return None;
    }
    Some(spans_of(design, rows, net))
}

/// The crossing of a net of a design in four rows.
fn crossing_in(alloc: Global, design: &Design, net: u32) -> Result<Option<Crossing>, Fail> {
    let rows = start(alloc, design, 4, StartBy::Width)?;
    Ok(crossing(design, &rows, net))
}

/// The crossing of a net of these calls in four rows.
fn crossing_of(alloc: Global, calls: &str, net: u32) -> Result<Option<Crossing>, Fail> {
    let design = designed(alloc, CELLS, calls)?;
    crossing_in(alloc, &design, net)
}

/// Calls, a net of theirs, and its crossing in four rows.
const CROSSED: [(&str, u32, Crossing); 3] = [
    (
        "u1 BUF n; u2 INV p; u3 INV q; u4 INV n;",
        1,
        Crossing::Many { lo: 1, hi: 3 },
    ),
    (
        "u1 BUF n; u2 INV p; u3 INV q; u4 INV n;",
        2,
        Crossing::Alone,
    ),
    (
        "u1 BUF n; u2 THR n; u3 INV q; u4 INV n;",
        1,
        Crossing::Many { lo: 1, hi: 3 },
    ),
];

#[test]
fn nets_cross_rows(rt: HostRuntime) -> Result<(), Fail> {
    for (calls, net, crossing) in &CROSSED {
        assert!(rt;
            crossing_of(rt.alloc(), calls, *net)? == Some(*crossing),
            "net {net} of {calls}"
        );
    }
    Ok(())
}

/// The number of an instance that stands upright, and of a feed its net behind an f.
fn item_text(alloc: Global, item: &Item) -> Result<String, AllocError> {
    match item {
        Item::Cell(seat) => match seat.mirror {
            false => format!(in alloc; "{} ", seat.instance),
            true => format!(in alloc; "mirrored {} ", seat.instance),
        },
        Item::Feed(net) => format!(in alloc; "f{net} "),
    }
}

/// The items of rows, each row ended by a bar.
fn rows_text(alloc: Global, rows: &[Items<Item>]) -> Result<String, AllocError> {
    let mut text = String::new(alloc);
    for row in rows {
        for item in row.items() {
            text.push_str(&item_text(alloc, item)?)?;
        }
        text.push_str("| ")?;
    }
    Ok(text)
}

/// Calls, how many rows they go into, the items of the rows with their feeds, their heights in units, their width in columns, and how many nets stand in each
/// channel.
struct Fed {
    calls: &'static str,
    rows: u32,
    items: &'static str,
    heights: &'static [u32],
    width: u64,
    nets: &'static [u32],
}

const FED: [Fed; 3] = [
    // A net crosses two rows by feeds.
    Fed {
        calls: "u1 BUF n; u2 INV p; u3 INV q; u4 INV n;",
        rows: 4,
        items: "0 | f1 1 | f1 2 | 3 | ",
        heights: &[40, 40, 40, 40],
        width: 2,
        nets: &[0, 1, 1, 1, 0],
    },
    // A net crosses a row by its through pin.
    Fed {
        calls: "u1 BUF n; u2 THR n; u3 INV q; u4 INV n;",
        rows: 4,
        items: "0 | 1 | f1 2 | 3 | ",
        heights: &[40, 40, 40, 40],
        width: 2,
        nets: &[0, 1, 1, 1, 0],
    },
    // Feeds at one place stand in the order of nets.
    Fed {
        calls: "u1 BUF a; u2 BUF b; u3 INV c; u4 INV d; u5 INV b; u6 INV a;",
        rows: 3,
        items: "0 1 | f1 f2 2 3 | 4 5 | ",
        heights: &[40, 40, 40],
        width: 4,
        nets: &[0, 2, 2, 0],
    },
];

/// Whether rows have the items, the heights, the width and the nets of a case.
fn are_fed(alloc: Global, fed: &FedRows, case: &Fed) -> Result<bool, AllocError> {
    let told = rows_text(alloc, fed.rows.items())?;
    let high = fed.heights.items() == case.heights;
    Ok(
        told.as_str() == case.items
            && high
            && fed.width == case.width
            && fed.nets.items() == case.nets,
    )
}

/// Whether a design has the rows with feeds of a case.
fn has_fed(alloc: Global, design: &Design, case: &Fed) -> Result<bool, Fail> {
    if case.rows == 0 || case.rows > 512 {
        return Ok(false);
    }
    let fed = fed_rows_of(alloc, design, case.rows)?;
    Ok(are_fed(alloc, &fed, case)?)
}

/// Whether the calls of a case have its rows with feeds.
fn is_fed(alloc: Global, case: &Fed) -> Result<bool, Fail> {
    let design = designed(alloc, CELLS, case.calls)?;
    has_fed(alloc, &design, case)
}

#[test]
fn rows_have_their_feeds(rt: HostRuntime) -> Result<(), Fail> {
    for case in &FED {
        assert!(rt; is_fed(rt.alloc(), case)?, "{}", case.calls);
    }
    Ok(())
}
