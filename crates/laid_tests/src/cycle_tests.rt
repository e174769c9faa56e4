//! What is told of two rows of two cells each, whose nets cross in the channel between them.

use channel_model::{Segment, Via, Wiring};
use geom_core::Items;
use greedy_router::{By, Columns, Routed, Sweep};
use layout_notes::{LaidLayout, note_layout};
use layout_report::{Summary, Taken};
use note_text::{Notes, put_notes};
use samples::{CELLS, designed, sample_rules};
use shelf_io::MemSink;
use std::alloc::{AllocError, Global};
use std::test::Fail;

/// The net b from the lower left to the upper right, by two tracks and a column more, and the net a between.
const SEGMENTS: [Segment; 8] = [
    Segment::Across {
        net: 1,
        column: 0,
        low: 0,
        high: 1,
    },
    Segment::Along {
        net: 1,
        track: 1,
        from: 0,
        to: 2,
    },
    Segment::Across {
        net: 1,
        column: 2,
        low: 1,
        high: 3,
    },
    Segment::Along {
        net: 1,
        track: 3,
        from: 1,
        to: 2,
    },
    Segment::Across {
        net: 1,
        column: 1,
        low: 3,
        high: 4,
    },
    Segment::Across {
        net: 2,
        column: 1,
        low: 0,
        high: 2,
    },
    Segment::Along {
        net: 2,
        track: 2,
        from: 0,
        to: 1,
    },
    Segment::Across {
        net: 2,
        column: 0,
        low: 2,
        high: 4,
    },
];

/// The columns and tracks of the vias, with their nets.
const VIAS: [Via; 6] = [
    Via {
        net: 1,
        column: 0,
        track: 1,
    },
    Via {
        net: 1,
        column: 2,
        track: 1,
    },
    Via {
        net: 1,
        column: 2,
        track: 3,
    },
    Via {
        net: 1,
        column: 1,
        track: 3,
    },
    Via {
        net: 2,
        column: 1,
        track: 2,
    },
    Via {
        net: 2,
        column: 0,
        track: 2,
    },
];

// A channel that is wired so.
fn routed(
    alloc: Global,
    tracks: u32,
    segments: &[Segment],
    vias: &[Via],
) -> Result<Routed, AllocError> {
    Ok(Routed {
        by: By::Greedy,
        wiring: Wiring {
            tracks,
            columns: 3,
            segments: Items::new(segments.to_vec(alloc)?),
            vias: Items::new(vias.to_vec(alloc)?),
        },
        sweep: Sweep {
            begun: 0,
            columns: Columns::new(alloc),
            order: Items::new(Vec::new(alloc)),
        },
    })
}

fn summary(alloc: Global, taken: Option<Taken>) -> Summary {
    Summary {
        cells: 4,
        nets: 2,
        rows: 2,
        feeds: 2,
        channels: Items::new(Vec::new(alloc)),
        width: 2400,
        height: 12800,
        cost: 10,
        taken,
    }
}

// The notes on the layout of a design of sample cells with these channels, as this try of several or as the one.
fn told_of(
    alloc: Global,
    calls: &str,
    routed: &[Routed],
    taken: Option<Taken>,
) -> Result<Option<Vec<u8>>, AllocError> {
    let rules = sample_rules(alloc)?;
    let Ok(design) = designed(alloc, CELLS, calls) else {
        return Ok(None);
    };
    let summary = summary(alloc, taken);
    let laid = LaidLayout {
        out_name: "o.cif",
        design: &design,
        rules: &rules,
        summary: &summary,
        routed,
        feed_wire: 75,
        first_cost: 12,
    };
    let mut notes = Notes::new(alloc);
    note_layout(alloc, &mut notes, &laid);
    let mut sink = MemSink::new(alloc)?;
    if put_notes(&mut sink, &notes).is_err() {
        return Ok(None);
    }
    Ok(Some(sink.bytes().to_vec(alloc)?))
}

const CALLS: &str = "u1 BUF b; u2 BUF a; u3 INV a; u4 INV b;";

const LINES: &str = "o.cif: 24.0 by 128.0 um, 3072 square um, of which cells fill 41.6 percent
wire in channels: 32.0 um of NM, 64.0 um of NP, 6 cuts; feeds in rows: 2, 75.0 um of NP
longest nets in channels: b 56.0 um, a 40.0 um
channel 0: tracks 0, 0 at least, by the greedy router
channel 1: tracks 3, 2 at least, by the greedy router
cost of the rows: 10
";

/// The same without wires.
const BARE_LINES: &str = "o.cif: 24.0 by 128.0 um, 3072 square um, of which cells fill 41.6 percent
wire in channels: 0.0 um of NM, 0.0 um of NP, 0 cuts; feeds in rows: 2, 75.0 um of NP
channel 0: tracks 0, 0 at least, by the greedy router
cost of the rows: 10
";

#[test]
fn what_is_told_of_a_layout(rt: HostRuntime) -> Result<(), Fail> {
    let alloc = rt.alloc();
    let mut channels = Vec::new(alloc);
    channels.push(routed(alloc, 0, &[], &[])?)?;
    channels.push(routed(alloc, 3, &SEGMENTS, &VIAS)?)?;
    let Some(told) = told_of(alloc, CALLS, channels.as_slice(), None)? else {
        assert!(rt; false, "no design");
        return Ok(());
    };
    let text = str::from_utf8(told.as_slice()).unwrap_or("no text");
    assert_eq!(rt; text, LINES);
    Ok(())
}

#[test]
fn what_is_told_without_wires(rt: HostRuntime) -> Result<(), Fail> {
    let alloc = rt.alloc();
    let mut channels = Vec::new(alloc);
    channels.push(routed(alloc, 0, &[], &[])?)?;
    let Some(told) = told_of(alloc, CALLS, channels.as_slice(), None)? else {
        assert!(rt; false, "no design");
        return Ok(());
    };
    let text = str::from_utf8(told.as_slice()).unwrap_or("no text");
    assert_eq!(rt; text, BARE_LINES);
    Ok(())
}

/// The line of a try that was taken, behind all others.
const TAKEN_LINE: &str = "taken of the tries: 2 rows, seed 7\n";

#[test]
fn what_is_told_of_a_try(rt: HostRuntime) -> Result<(), Fail> {
    let alloc = rt.alloc();
    let mut channels = Vec::new(alloc);
    channels.push(routed(alloc, 0, &[], &[])?)?;
    let taken = Some(Taken { rows: 2, seed: 7 });
    let Some(told) = told_of(alloc, CALLS, channels.as_slice(), taken)? else {
        assert!(rt; false, "no design");
        return Ok(());
    };
    let text = str::from_utf8(told.as_slice()).unwrap_or("no text");
    assert_eq!(rt;
        text,
        format!(in alloc; "{BARE_LINES}{TAKEN_LINE}")?.as_str()
    );
    Ok(())
}
