//! The lines of a summary.

use geom_core::Items;
use greedy_router::By;
use layout_report::{ChannelLine, Summary, Taken, print_summary};
use shelf_io::MemSink;
use std::alloc::{AllocError, Global};
use std::test::Fail;

// A summary of a vertical cycle between two rows, whose middle channel is routed so.
fn summary(alloc: Global, by: By) -> Result<Summary, AllocError> {
    let empty = ChannelLine {
        tracks: 0,
        extra: 0,
        by: By::Greedy,
    };
    let mut channels = Vec::new(alloc);
    channels.push(empty)?;
    channels.push(ChannelLine {
        tracks: 3,
        extra: 1,
        by,
    })?;
    channels.push(empty)?;
    Ok(Summary {
        cells: 4,
        nets: 2,
        rows: 2,
        feeds: 18446744073709551615,
        channels: Items::new(channels),
        width: 2400,
        height: 12800,
        cost: 10,
        taken: None,
    })
}

const LINES: &str = "cells 4
nets 2
rows 2
feeds 18446744073709551615
channel 0 tracks 0 extra 0 greedy
channel 1 tracks 3 extra 1 plain
channel 2 tracks 0 extra 0 greedy
size 2400 12800
cost 10
";

#[test]
fn the_lines_of_a_summary(rt: HostRuntime) -> Result<(), Fail> {
    let alloc = rt.alloc();
    let summary = summary(alloc, By::Plain)?;
    let mut whole = MemSink::new(alloc)?;
    let told = print_summary(&summary, &mut whole).is_ok();
    assert!(rt; told);
    assert!(rt; whole.bytes() == LINES.as_bytes());
    let mut slow = MemSink::new(alloc)?;
    slow.most(7);
    let told = print_summary(&summary, &mut slow).is_ok();
    assert!(rt; told);
    assert!(rt; slow.bytes() == LINES.as_bytes());
    Ok(())
}

// The line of the placement that was taken of several.
const TAKEN: &str = "taken rows 2 seed 18446744073709551615\n";

// The rows of the summary are those of the layout with its ports, and those of the placement without them.
#[test]
fn the_placement_that_was_taken(rt: HostRuntime) -> Result<(), Fail> {
    let alloc = rt.alloc();
    let mut summary = summary(alloc, By::Plain)?;
    summary.taken = Some(Taken {
        rows: 2,
        seed: 18446744073709551615,
    });
    let mut whole = MemSink::new(alloc)?;
    let told = print_summary(&summary, &mut whole).is_ok();
    assert!(rt; told);
    assert!(rt; whole.bytes() == format!(in alloc; "{LINES}{TAKEN}")?.as_bytes());
    let mut cut = MemSink::new(alloc)?;
    cut.fail_at(9)?;
    let failed = print_summary(&summary, &mut cut).is_err();
    assert!(rt; failed);
    assert!(rt; cut.bytes() == LINES.as_bytes());
    Ok(())
}

// Whether a sink that fails at this call gains so many bytes of the lines, and no more.
fn is_front(
    alloc: Global,
    summary: &Summary,
    call: u64,
    length: usize,
) -> Result<bool, AllocError> {
    let mut sink = MemSink::new(alloc)?;
    sink.fail_at(call)?;
    let failed = print_summary(summary, &mut sink).is_err();
    let bytes = sink.bytes();
    Ok(failed && bytes.len() == length && LINES.as_bytes().starts_with(bytes))
}

// Each line is put in one piece, so the sink is called once for each of the nine.
#[test]
fn a_sink_that_fails_at_a_line(rt: HostRuntime) -> Result<(), Fail> {
    let alloc = rt.alloc();
    let summary = summary(alloc, By::Plain)?;
    assert!(rt; is_front(alloc, &summary, 0, 0)?);
    assert!(rt; is_front(alloc, &summary, 1, 8)?);
    assert!(rt; is_front(alloc, &summary, 2, 15)?);
    assert!(rt; is_front(alloc, &summary, 3, 22)?);
    assert!(rt; is_front(alloc, &summary, 4, 49)?);
    assert!(rt; is_front(alloc, &summary, 5, 83)?);
    assert!(rt; is_front(alloc, &summary, 6, 116)?);
    assert!(rt; is_front(alloc, &summary, 7, 150)?);
    assert!(rt; is_front(alloc, &summary, 8, 166)?);
    let mut sink = MemSink::new(alloc)?;
    sink.fail_at(9)?;
    let told = print_summary(&summary, &mut sink).is_ok();
    assert!(rt; told);
    Ok(())
}
