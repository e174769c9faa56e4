//! Each call of the sink for lines, and of the one for notes, failing once.

use crate::support::{
    CHECK, ROUTE, SUMMARY, TWO_JOINED, are_kept, front, holds, joined_shelf, status_of,
};
use samples::{INVERTER, design_text};
use shelf_io::{MemShelf, MemSink};
use std::alloc::{AllocError, Global};
use std::test::Fail;

// A sink whose puts take at most so many bytes, and whose calls of this number and of that fail.
fn failing_sink(alloc: Global, most: usize, call: u64, other: u64) -> Result<MemSink, AllocError> {
    let mut sink = MemSink::new(alloc)?;
    sink.most(most.max(1));
    sink.fail_at(call)?;
    sink.fail_at(other)?;
    Ok(sink)
}

// The first lines of a text.
fn front_lines(text: &str, count: u64) -> &[u8] {
    let mut left = count;
    for (at, byte) in text.as_bytes().iter().enumerate() {
        if left == 0 {
            return front(text, at);
        }
        if *byte == b'\n' {
            left = left.saturating_sub(1);
        }
    }
    text.as_bytes()
}

// A front of lines, and behind it the line of a write fault.
fn cut_off(alloc: Global, printed: &[u8]) -> Result<Vec<u8>, AllocError> {
    let mut text = printed.to_vec(alloc)?;
    text.extend_from_slice(b"write fault\n")?;
    Ok(text)
}

// Whether these words end with this status over a shelf and a sink, which holds these lines then.
fn is_told(
    alloc: Global,
    words: &str,
    shelf: &mut MemShelf,
    out: &mut MemSink,
    status: u8,
    lines: &[u8],
) -> Result<bool, AllocError> {
    let mut notes = MemSink::new(alloc)?;
    Ok(status_of(alloc, words, shelf, out, &mut notes)? == status && out.bytes() == lines)
}

// Whether `route` over a sink that fails ends so and prints this, and OUT holds the whole layout.
fn is_routed_so(
    alloc: Global,
    mut out: MemSink,
    status: u8,
    lines: &[u8],
) -> Result<bool, AllocError> {
    let mut shelf = joined_shelf(alloc)?;
    let told = is_told(alloc, ROUTE, &mut shelf, &mut out, status, lines)?;
    Ok(told && holds(&shelf, "o", TWO_JOINED.as_bytes()) && are_kept(alloc, &shelf, "o")?)
}

/// A summary of eight lines, each of which is one put.
#[test]
fn each_line_of_a_summary_fails_once(rt: HostRuntime) -> Result<(), Fail> {
    for call in 0..8u64 {
        let want = cut_off(rt.alloc(), front_lines(SUMMARY, call))?;
        let out = failing_sink(rt.alloc(), 4096, call, call)?;
        assert!(rt;
            is_routed_so(rt.alloc(), out, 9, want.as_slice())?,
            "{call}"
        );
    }
    let out = failing_sink(rt.alloc(), 4096, 8, 8)?;
    assert!(rt; is_routed_so(rt.alloc(), out, 0, SUMMARY.as_bytes())?);
    Ok(())
}

/// A sink that takes a byte at a time fails at each, and so stands a front of the summary before the line of a write fault; where it fails twice in turn, nothing of that line.
#[test]
fn each_byte_of_a_summary_fails_once(rt: HostRuntime) -> Result<(), Fail> {
    let mut call = 0u64;
    for at in 0..SUMMARY.len() {
        let printed = front(SUMMARY, at);
        let want = cut_off(rt.alloc(), printed)?;
        let out = failing_sink(rt.alloc(), 1, call, call)?;
        assert!(rt; is_routed_so(rt.alloc(), out, 9, want.as_slice())?, "{at}");
        let out = failing_sink(rt.alloc(), 1, call, call.saturating_add(1))?;
        assert!(rt; is_routed_so(rt.alloc(), out, 9, printed)?, "{at}");
        call = call.saturating_add(1);
    }
    Ok(())
}

/// The findings of a layout with a further wire that is too close to three shapes, a line each, and their number.
const CLOSE: &str = "Close 6 13\nClose 7 13\nClose 10 13\nfindings 3\n";

// Whether `check` of such a layout over a sink that takes a byte at a time, and whose call of this number fails, ends so and prints this, and leaves all files as they were.
fn is_found_so(alloc: Global, call: u64, status: u8, lines: &[u8]) -> Result<bool, AllocError> {
    let mut layout = front(TWO_JOINED, 360).to_vec(alloc)?;
    layout.extend_from_slice(b"L NM;\nB 300 300 800 6100;\nE\n")?;
    let mut shelf = joined_shelf(alloc)?;
    shelf.set("c", layout.as_slice())?;
    let mut out = failing_sink(alloc, 1, call, call)?;
    let told = is_told(alloc, CHECK, &mut shelf, &mut out, status, lines)?;
    Ok(told && holds(&shelf, "c", layout.as_slice()) && are_kept(alloc, &shelf, "c")?)
}

#[test]
fn each_byte_of_the_findings_fails_once(rt: HostRuntime) -> Result<(), Fail> {
    let mut call = 0u64;
    for at in 0..CLOSE.len() {
        let want = cut_off(rt.alloc(), front(CLOSE, at))?;
        assert!(rt; is_found_so(rt.alloc(), call, 9, want.as_slice())?, "{at}");
        call = call.saturating_add(1);
    }
    assert!(rt; is_found_so(rt.alloc(), call, 1, CLOSE.as_bytes())?);
    Ok(())
}

/// Words over the shelf with two joined buffers, or behind `other` over one whose design has one inverter alone, how they end, and whether OUT holds the layout of the buffers then.
const NOTED: [(&str, bool, u8, &str, bool); 8] = [
    (ROUTE, false, 0, SUMMARY, true),
    ("route|d|r|o|-q", false, 0, SUMMARY, true),
    (CHECK, false, 0, "findings 0\n", false),
    (
        CHECK,
        true,
        1,
        "Missing u3\nStrange u1\nStrange u2\nfindings 3\n",
        false,
    ),
    ("route|d|d|o", false, 4, "rules Toml\n", false),
    ("check|d|r|d", false, 7, "cif BadCommand 0\n", false),
    ("route|none|r|o", false, 8, "read fault\n", false),
    ("rout|d|r|o", false, 2, "usage\n", false),
];

// Whether words end so over a sink for notes, which holds a front of these notes then, and the files are as they should be.
fn is_noted_so(
    alloc: Global,
    case: &(&str, bool, u8, &str, bool),
    mut notes: MemSink,
    whole: &[u8],
) -> Result<bool, AllocError> {
    let mut shelf = joined_shelf(alloc)?;
    if case.1 {
        let design = design_text(alloc, INVERTER, "u3 INV n1;\n")?;
        shelf.set("d", design.as_bytes())?;
    }
    let mut out = MemSink::new(alloc)?;
    let status = status_of(alloc, case.0, &mut shelf, &mut out, &mut notes)?;
    let layout = if case.4 { TWO_JOINED } else { "old" };
    Ok(
        status == case.2
            && out.bytes() == case.3.as_bytes()
            && holds(&shelf, "o", layout.as_bytes())
            && whole.starts_with(notes.bytes()),
    )
}

// What these words note where no call fails.
fn notes_of(alloc: Global, case: &(&str, bool, u8, &str, bool)) -> Result<Vec<u8>, AllocError> {
    let mut shelf = joined_shelf(alloc)?;
    if case.1 {
        let design = design_text(alloc, INVERTER, "u3 INV n1;\n")?;
        shelf.set("d", design.as_bytes())?;
    }
    let mut out = MemSink::new(alloc)?;
    let mut notes = MemSink::new(alloc)?;
    let _ = status_of(alloc, case.0, &mut shelf, &mut out, &mut notes)?;
    notes.bytes().to_vec(alloc)
}

/// Whatever becomes of the notes, the status, the lines and the files are the same.
#[test]
fn each_call_of_the_sink_for_notes_fails_once(rt: HostRuntime) -> Result<(), Fail> {
    for case in &NOTED {
        let whole = notes_of(rt.alloc(), case)?;
        for call in 0..64u64 {
            let notes = failing_sink(rt.alloc(), 16, call, call)?;
            assert!(rt;
                is_noted_so(rt.alloc(), case, notes, whole.as_slice())?,
                "{} {call}",
                case.0
            );
        }
    }
    Ok(())
}
