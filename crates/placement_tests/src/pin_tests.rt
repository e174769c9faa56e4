//! The tables of channels, and the bound of a layout.

ghost use Rattle.feed_cells.specs.Fed.{IsFed, cells_in};
ghost use Rattle.feed_cells.specs.Placement.{placement_of};
ghost use Rattle.row_model.specs.Rows.{ArePlaced};
ghost use Rattle.std.specs.Prelude.{◌≡◌, ◌<◌, ◌≤◌};

use crate::first_rows::fed_rows_of;
use channel_model::Channel;
use design_model::Design;
use feed_cells::{FedRows, Placement, insert_feeds, place};
use pin_assign::{Bound, bound_of, channels};
use row_model::{Rows, start};
use samples::{CELLS, SampleFault, designed, sample_rules};
use std::alloc::{AllocError, Global};
use std::test::Fail;
use tech_rules::StartBy;

/// A cell of two columns, with a pin below in the first and above in the second, and another above in the first.
const PAIR: &str =
    "MODULE PAIR; TYPE STANDARD; DIMENSIONS 0 0 16 0 16 40 0 40; IOLIST; a I 4 0 3 POLY; a I 12 40 3 POLY; y O 4 40 3 POLY; ENDIOLIST; ENDMODULE;";

/// The design with these calls.
fn designed_with(alloc: Global, calls: &str) -> Result<Design, SampleFault> {
    let modules = format!(in alloc; "{CELLS}{PAIR}").map_err(|_| SampleFault::Memory)?;
    designed(alloc, modules.as_str(), calls)
}

/// The bound of rows of a design with their feeds, under the sample rules.
fn bound_in(alloc: Global, design: &Design, fed: &FedRows) -> Result<Bound, AllocError>
    requires { IsFed design.now fed.now }
{
    let rules = sample_rules(alloc)?;
    let _pins = &design.pins;
    Ok(bound_of(design, fed, &rules))
}

/// The bound of a design in so many rows.
fn bound_with(alloc: Global, design: &Design, count: u32) -> Result<Bound, Fail>
    requires some { 0 < count }
    requires few { count ≤ 512 }
{
    let fed = fed_rows_of(alloc, design, count)?;
    Ok(bound_in(alloc, design, &fed)?)
}

/// The bound of a design with these calls in so many rows.
fn bound_with_calls(alloc: Global, calls: &str, count: u32) -> Result<Bound, Fail>
    requires some { 0 < count }
    requires few { count ≤ 512 }
{
    let design = designed_with(alloc, calls)?;
    bound_with(alloc, &design, count)
}

/// Calls, the number of rows, and for each channel the nets at its upper and at its lower edge.
struct Tabled {
    calls: &'static str,
    rows: u32,
    channels: &'static [(&'static [u32], &'static [u32])],
}

const TABLED: [Tabled; 7] = [
    Tabled {
        calls: "u1 BUF b; u2 BUF a; u3 INV a; u4 INV b;",
        rows: 2,
        channels: &[(&[0, 0], &[0, 0]), (&[2, 1], &[1, 2]), (&[0, 0], &[0, 0])],
    },
    Tabled {
        calls: "u1 BUF n; u2 INV p; u3 INV q; u4 INV n;",
        rows: 4,
        channels: &[
            (&[0, 0], &[0, 0]),
            (&[1, 0], &[1, 0]),
            (&[1, 0], &[1, 0]),
            (&[1, 0], &[1, 0]),
            (&[0, 0], &[0, 0]),
        ],
    },
    Tabled {
        calls: "u1 BUF n; u2 THR n; u3 INV n;",
        rows: 3,
        channels: &[(&[0], &[0]), (&[1], &[1]), (&[1], &[1]), (&[0], &[0])],
    },
    Tabled {
        calls: "u1 BUF n; u2 THR n; u3 INV p;",
        rows: 3,
        channels: &[(&[0], &[0]), (&[1], &[1]), (&[0], &[0]), (&[0], &[0])],
    },
    Tabled {
        calls: "u1 PAIR n m; u2 PAIR n m;",
        rows: 1,
        channels: &[
            (&[1, 0, 1, 0], &[0, 0, 0, 0]),
            (&[0, 0, 0, 0], &[2, 0, 2, 0]),
        ],
    },
    Tabled {
        calls: "u1 BUF n;",
        rows: 1,
        channels: &[(&[0], &[0]), (&[0], &[0])],
    },
    Tabled {
        calls: "",
        rows: 1,
        channels: &[(&[], &[]), (&[], &[])],
    },
];

/// Whether channels have these nets.
fn are_channels(channels: &[Channel], wanted: &[(&[u32], &[u32])]) -> bool {
    if channels.len() != wanted.len() {
        return false;
    }
    for (channel, (top, bottom)) in channels.iter().zip(wanted) {
        if channel.top.items() != *top || channel.bottom.items() != *bottom {
            return false;
        }
    }
    true
}

/// Whether the channels of rows with feeds have these nets.
fn has_channels(
    alloc: Global,
    design: &Design,
    fed: &FedRows,
    placement: &Placement,
    wanted: &[(&[u32], &[u32])],
) -> Result<bool, Fail>
    requires fed { IsFed design.now fed.now }
    requires placement { placement.now ≡ placement_of design.now (cells_in fed.now.rows) }
{
    if fed.width > 4000000 {
        return Ok(false);
    }
    let made = channels(alloc, design, fed, placement)?;
    Ok(are_channels(made.as_slice(), wanted))
}

/// Whether the channels of rows do, once the rows have their feeds.
fn have_channels(
    alloc: Global,
    design: &Design,
    rows: &Rows,
    placement: &Placement,
    wanted: &[(&[u32], &[u32])],
) -> Result<bool, Fail>
    requires placed { ArePlaced design.now rows.now }
    requires placement { placement.now ≡ placement_of design.now rows.now }
{
    let fed = insert_feeds(alloc, design, rows, placement)?;
    has_channels(alloc, design, &fed, placement, wanted)
}

/// Whether those of placed rows do.
fn are_tabled(
    alloc: Global,
    design: &Design,
    rows: &Rows,
    wanted: &[(&[u32], &[u32])],
) -> Result<bool, Fail>
    requires { ArePlaced design.now rows.now }
{
    let placement = place(alloc, design, rows)?;
    have_channels(alloc, design, rows, &placement, wanted)
}

/// Whether a design in rows has the channels of a case.
fn has_tables(alloc: Global, design: &Design, case: &Tabled) -> Result<bool, Fail> {
    if case.rows == 0 || case.rows > 512 {
        return Ok(false);
    }
    let rows = start(alloc, design, case.rows, StartBy::Width)?;
    are_tabled(alloc, design, &rows, case.channels)
}

/// Whether the calls of a case have its channels.
fn is_tabled(alloc: Global, case: &Tabled) -> Result<bool, Fail> {
    let design = designed_with(alloc, case.calls)?;
    has_tables(alloc, &design, case)
}

#[test]
fn nets_enter_channels(rt: HostRuntime) -> Result<(), Fail> {
    for case in &TABLED {
        assert!(rt; is_tabled(rt.alloc(), case)?, "{}", case.calls);
    }
    Ok(())
}

#[test]
fn a_layout_is_within_its_bound(rt: HostRuntime) -> Result<(), Fail> {
    let wanted = Bound {
        width: 2400,
        height: 24800,
        grid: 15,
    };
    let calls = "u1 BUF n; u2 INV p; u3 INV q; u4 INV n;";
    assert!(rt; bound_with_calls(rt.alloc(), calls, 4)? == wanted);
    assert!(rt; bound_with_calls(rt.alloc(), "", 1)?.grid == 0);
    Ok(())
}
