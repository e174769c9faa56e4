//! Whole texts, byte for byte.

use crate::support::{Rowed, behind, is_made_of, layout_for};
use std::alloc::{AllocError, Global};
use std::test::Fail;

/// Two INV of one net, one above the other, under the sample rules. Each row is 40 units high, and lengths below are in units.
///
/// The net is reached below row 0 at u1 and below row 1 at u2, so that it stands in channels 0 and 1 and crosses row 0 by a feed, which stands before u1, as the
/// middle of its pins is column 0. Channels 0 and 1 have two tracks and are 24 high, and channel 2 has none.
const TWO_ROWS: &[&str] = &[
    // The symbols: INV with its pin of 3 by 4, and a feed with a wire from edge to edge.
    "(cellroute 1);\nDS 1 1 1;\n9 INV;\nL XP;\nB 800 4000 400 2000;\nL NP;\nB 300 400 400 200;\nDF;\n",
    "DS 2 1 1;\nL XP;\nB 800 4000 400 2000;\nL NP;\nB 300 4000 400 2000;\nDF;\n",
    // Channel 0, from 0 to 24, with top pins in columns 0 and 1: wires down from the edge to half a pad below track 2, from 14 to 24, in x 4 and 12.
    "L NP;\nB 300 1000 400 1900;\nB 300 1000 1200 1900;\n",
    // Track 2, at 16, from half a pad left of column 0 to half a pad right of column 1: 2 to 14.
    "L NM;\nB 1200 300 800 1600;\n",
    // The vias: pads of 4 by 4 on both layers, and cuts of 2 by 2. The first pad is on the layer of the track.
    "B 400 400 400 1600;\nL NP;\nB 400 400 400 1600;\nL NC;\nB 200 200 400 1600;\n",
    "L NM;\nB 400 400 1200 1600;\nL NP;\nB 400 400 1200 1600;\nL NC;\nB 200 200 1200 1600;\n",
    // Row 0, from 24 to 64: the feed has no name.
    "C 2 T 0 2400;\n91 u1;\nC 1 T 800 2400;\n",
    // Channel 1, from 64 to 88: the feed below and u2 above, both in column 0; the wire from 64 to 74, and that from 78 to 88.
    "L NP;\nB 300 1000 400 6900;\nB 300 1000 400 8300;\n",
    // The added column 2 from track 1 to track 2, with half a pad at each end: 70 to 82, in x 20.
    "B 300 1200 2000 7600;\n",
    // The tracks, at 72 and 80, from column 0 to column 2: 2 to 22.
    "L NM;\nB 2000 300 1200 7200;\nB 2000 300 1200 8000;\n",
    // The vias of the pins, and then those of the added column.
    "B 400 400 400 7200;\nL NP;\nB 400 400 400 7200;\nL NC;\nB 200 200 400 7200;\n",
    "L NM;\nB 400 400 400 8000;\nL NP;\nB 400 400 400 8000;\nL NC;\nB 200 200 400 8000;\n",
    "L NM;\nB 400 400 2000 7200;\nL NP;\nB 400 400 2000 7200;\nL NC;\nB 200 200 2000 7200;\n",
    "L NM;\nB 400 400 2000 8000;\nL NP;\nB 400 400 2000 8000;\nL NC;\nB 200 200 2000 8000;\n",
    // Row 1, from 88 to 128.
    "91 u2;\nC 1 T 0 8800;\nE\n",
];

/// A DRV of two columns, mirrored: it is drawn as it is, and called by its right edge, at 16, on a channel of 8.
const MIRRORED: &[&str] = &[
    "(cellroute 1);\nDS 1 1 1;\n9 DRV;\nL XP;\nB 1600 4000 800 2000;\nL NP;\nB 300 400 400 200;\nB 300 400 1200 3800;\nDF;\n",
    "91 u;\nC 1 M X T 1600 800;\nE\n",
];

/// A feed of a row of 80 units below one of a row of 40: the symbols of the cells used, INV, BUF and INT, and behind them those of feeds, the lower first.
const FED_FRONT: &[&str] = &[
    "(cellroute 1);\nDS 1 1 1;\n9 INV;\nL XP;\nB 800 4000 400 2000;\nL NP;\nB 300 400 400 200;\nDF;\n",
    "DS 2 1 1;\n9 BUF;\nL XP;\nB 800 4000 400 2000;\nL NP;\nB 300 400 400 3800;\nDF;\n",
    "DS 3 1 1;\n9 INT;\nL XP;\nB 800 8000 400 4000;\nL NP;\nB 300 400 400 200;\nDF;\n",
    "DS 4 1 1;\nL XP;\nB 800 4000 400 2000;\nL NP;\nB 300 4000 400 2000;\nDF;\n",
    "DS 5 1 1;\nL XP;\nB 800 8000 400 4000;\nL NP;\nB 300 8000 400 4000;\nDF;\n",
    // Channel 0 is empty, and row 0 lies from 8 to 48.
    "91 u1;\nC 2 T 0 800;\n",
];

/// The lines that call its symbols: a net leads from row 0 to row 3, over rows that lie from 72 to 152 and from 176 to 216, between channels of 24 units.
const FED_CALLS: &str =
    "C 2 T 0 800;\nC 5 T 0 7200;\nC 3 T 800 7200;\nC 4 T 0 17600;\nC 1 T 800 17600;\nC 1 T 0 24000;\n";

/// A buffer beside a cell of 80 units, in a row from 8 to 88: the riser, from 8 + 36 to 88, stands behind the row's cells and before the wires of channel 1, in which the first goes from 88 to
/// half a pad above track 1, at 96.
const RISEN: &[&str] = &[
    "(cellroute 1);\nDS 1 1 1;\n9 BUF;\nL XP;\nB 800 4000 400 2000;\nL NP;\nB 300 400 400 3800;\nDF;\n",
    "DS 2 1 1;\n9 TAL;\nL XP;\nB 800 8000 400 4000;\nL NP;\nB 300 400 400 7800;\nDF;\n",
    "91 u1;\nC 1 T 0 800;\n91 u2;\nC 2 T 800 800;\nL NP;\nB 300 4400 400 6600;\n",
    "B 300 1000 400 9300;\n",
];

/// Whether the text of a design in rows is made of these pieces.
fn is_text(alloc: Global, rowed: Rowed, pieces: &[&str]) -> Result<bool, Fail> {
    match layout_for(alloc, rowed)? {
        Some(made) => Ok(is_made_of(made.texts.bare.as_slice(), pieces)),
        None => Ok(false),
    }
}

#[test]
fn two_rows_with_a_feed(rt: HostRuntime) -> Result<(), Fail> {
    let rowed = Rowed {
        calls: "u1 INV n; u2 INV n;",
        rows: 2,
        mirrored: false,
    };
    assert!(rt; is_text(rt.alloc(), rowed, TWO_ROWS)?);
    Ok(())
}

#[test]
fn a_mirrored_cell_is_called_by_its_right_edge(rt: HostRuntime) -> Result<(), Fail> {
    let rowed = Rowed {
        calls: "u DRV VDD x y;",
        rows: 1,
        mirrored: true,
    };
    assert!(rt; is_text(rt.alloc(), rowed, MIRRORED)?);
    Ok(())
}

/// Whether the text of a design in rows begins with these pieces.
fn begins_so(alloc: Global, rowed: Rowed, pieces: &[&str]) -> Result<bool, Fail> {
    match layout_for(alloc, rowed)? {
        Some(made) => Ok(behind(made.texts.bare.as_slice(), pieces).is_some()),
        None => Ok(false),
    }
}

/// The lines of a text that call symbols.
fn calls_in(alloc: Global, text: &str) -> Result<String, AllocError> {
    let mut calls = String::new(alloc);
    for line in text.split('\n') {
        if line.starts_with("C ") {
            calls.push_str(line)?;
            calls.push_str("\n")?;
        }
    }
    Ok(calls)
}

/// Whether these are the lines of a text that call symbols.
fn are_calls(alloc: Global, text: &[u8], wanted: &str) -> Result<bool, Fail> {
    match str::from_utf8(text) {
        Ok(text) => Ok(calls_in(alloc, text)?.as_str() == wanted),
        Err(_) => Ok(false),
    }
}

/// The same of the text of a design in rows.
fn has_calls(alloc: Global, rowed: Rowed, wanted: &str) -> Result<bool, Fail> {
    match layout_for(alloc, rowed)? {
        Some(made) => are_calls(alloc, made.texts.bare.as_slice(), wanted),
        None => Ok(false),
    }
}

#[test]
fn feeds_of_two_heights_have_symbols_from_the_lower_up(rt: HostRuntime) -> Result<(), Fail> {
    let rowed = Rowed {
        calls: "u1 BUF n; u2 INT p; u3 INV q; u4 INV n;",
        rows: 4,
        mirrored: false,
    };
    assert!(rt; begins_so(rt.alloc(), rowed, FED_FRONT)?);
    assert!(rt; has_calls(rt.alloc(), rowed, FED_CALLS)?);
    Ok(())
}

#[test]
fn a_riser_stands_behind_the_cells_of_its_row(rt: HostRuntime) -> Result<(), Fail> {
    let rowed = Rowed {
        calls: "u1 BUF n; u2 TAL n;",
        rows: 1,
        mirrored: false,
    };
    assert!(rt; begins_so(rt.alloc(), rowed, RISEN)?);
    Ok(())
}
