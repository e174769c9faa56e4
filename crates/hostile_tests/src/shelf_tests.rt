//! Each call of a shelf failing once.

use crate::support::{
    CHECK, ROUTE, SUMMARY, TWO_JOINED, are_kept, begins_so, front, holds, is_ended, joined_shelf,
    status_of,
};
use shelf_io::{MemShelf, MemSink};
use std::alloc::{AllocError, Global};
use std::test::Fail;

// A shelf with the design of two joined buffers, of which a put takes at most so many bytes, and whose call of this number fails.
fn failing_shelf(alloc: Global, most: usize, call: u64) -> Result<MemShelf, AllocError> {
    let mut shelf = joined_shelf(alloc)?;
    shelf.most(most.max(1));
    shelf.fail_at(call)?;
    Ok(shelf)
}

/// How `route` ends where this call of a shelf fails whose puts take 64 bytes: two takes of the rules, two of the design, `begin`, and a put for each piece of the layout's 362 bytes. The status, and how
/// many of them stand in OUT then; none where it is as before.
const ROUTED: [(u64, u8, Option<usize>); 13] = [
    (0, 8, None),
    (1, 8, None),
    (2, 8, None),
    (3, 8, None),
    (4, 9, None),
    (5, 9, Some(0)),
    (6, 9, Some(64)),
    (7, 9, Some(128)),
    (8, 9, Some(192)),
    (9, 9, Some(256)),
    (10, 9, Some(320)),
    (11, 0, Some(362)),
    (12, 0, Some(362)),
];

// What is printed with a status.
fn lines_of(status: u8) -> &'static str {
    match status {
        0 => SUMMARY,
        8 => "read fault\n",
        _ => "write fault\n",
    }
}

// Whether routing into this file ends so where this call fails, and all other files are as they were.
fn is_routed_so(
    alloc: Global,
    words: &str,
    file: &str,
    call: u64,
    status: u8,
    held: Option<usize>,
) -> Result<bool, AllocError> {
    let mut shelf = failing_shelf(alloc, 64, call)?;
    if !is_ended(alloc, words, &mut shelf, status, lines_of(status))? {
        return Ok(false);
    }
    match held {
        None => are_kept(alloc, &shelf, ""),
        Some(count) => Ok(
            holds(&shelf, file, front(TWO_JOINED, count)) && are_kept(alloc, &shelf, file)?,
        ),
    }
}

/// Words that route, and the file that they write: another one, that of the design, that of the rules.
const INTO: [(&str, &str); 3] = [(ROUTE, "o"), ("route|d|r|d", "d"), ("route|d|r|r", "r")];

#[test]
fn each_call_of_route_fails_once(rt: HostRuntime) -> Result<(), Fail> {
    for (words, file) in INTO {
        for (call, status, held) in ROUTED {
            assert!(rt;
                is_routed_so(rt.alloc(), words, file, call, status, held)?,
                "{words} {call}"
            );
        }
    }
    Ok(())
}

// Whether `check` with these words ends so where this call fails, and all files are as they were.
fn is_checked_so(
    alloc: Global,
    words: &str,
    call: u64,
    status: u8,
    line: &str,
) -> Result<bool, AllocError> {
    let mut shelf = failing_shelf(alloc, 64, call)?;
    Ok(is_ended(alloc, words, &mut shelf, status, line)? && are_kept(alloc, &shelf, "")?)
}

/// Two takes of the rules, two of the design and two of the layout fail in turn, and then none.
#[test]
fn each_call_of_check_fails_once(rt: HostRuntime) -> Result<(), Fail> {
    for call in 0..6u64 {
        assert!(rt;
            is_checked_so(rt.alloc(), CHECK, call, 8, "read fault\n")?,
            "{call}"
        );
    }
    assert!(rt; is_checked_so(rt.alloc(), CHECK, 6, 0, "findings 0\n")?);
    // What refuses goes before a file that is not come to: the rules, then the design.
    assert!(rt; is_checked_so(rt.alloc(), "check|d|d|c", 2, 4, "rules Toml\n")?);
    assert!(rt; is_checked_so(rt.alloc(), "check|r|r|c", 4, 3, "yal Word 0\n")?);
    Ok(())
}

/// How many bytes of a made layout are put at once.
const MADE_PIECE: usize = 200;

/// The words that make a design of three cells.
const MAKE: &str = "make|5|3|r|o";

// Whether `make` ends so where this call fails, prints this line, and leaves these bytes in OUT and all else as it was.
fn is_made_so(alloc: Global, call: u64, status: u8, held: &[u8]) -> Result<bool, AllocError> {
    let mut shelf = failing_shelf(alloc, MADE_PIECE, call)?;
    let ended = is_ended(alloc, MAKE, &mut shelf, status, lines_of(status))?;
    Ok(ended && holds(&shelf, "o", held) && are_kept(alloc, &shelf, "o")?)
}

// Whether `make` ends with 0 where this call fails, and leaves these bytes in OUT.
fn is_made_whole(alloc: Global, call: u64, held: &[u8]) -> Result<bool, AllocError> {
    let mut shelf = failing_shelf(alloc, MADE_PIECE, call)?;
    Ok(begins_so(alloc, MAKE, &mut shelf, "cells 3\n")? && holds(&shelf, "o", held))
}

/// Two takes of the rules, `begin`, and the puts, of which there are more than ten here; a front of the text that is written where none fails stands in OUT behind a put that fails.
#[test]
fn each_call_of_make_fails_once(rt: HostRuntime) -> Result<(), Fail> {
    let mut whole = joined_shelf(rt.alloc())?;
    assert!(rt; begins_so(rt.alloc(), MAKE, &mut whole, "cells 3\n")?);
    let text = whole.get("o").unwrap_or(&[]);
    assert!(rt; is_made_so(rt.alloc(), 0, 8, b"old")?);
    assert!(rt; is_made_so(rt.alloc(), 1, 8, b"old")?);
    assert!(rt; is_made_so(rt.alloc(), 2, 9, b"old")?);
    let mut put = 0;
    let mut call = 3u64;
    for piece in text.chunks(MADE_PIECE) {
        let held = text.get(..put).unwrap_or(text);
        assert!(rt; is_made_so(rt.alloc(), call, 9, held)?, "{call}");
        put = piece.len().saturating_add(put);
        call = call.saturating_add(1);
    }
    assert!(rt; call > 13 && put == text.len());
    assert!(rt; is_made_whole(rt.alloc(), call, text)?);
    Ok(())
}

/// A file of several pieces of 4,096 bytes, of which each fails once: rules with a long comment behind them are taken in three pieces, and then there is none.
#[test]
fn each_take_of_a_long_file_fails_once(rt: HostRuntime) -> Result<(), Fail> {
    for call in 0..8u64 {
        let mut shelf = joined_shelf(rt.alloc())?;
        let mut rules = shelf.get("r").unwrap_or(&[]).to_vec(rt.alloc())?;
        rules.push(b'#')?;
        for _ in 0..10_000u32 {
            rules.push(b' ')?;
        }
        shelf.set("r", rules.as_slice())?;
        shelf.fail_at(call)?;
        let mut out = MemSink::new(rt.alloc())?;
        let mut notes = MemSink::new(rt.alloc())?;
        let status = status_of(rt.alloc(), ROUTE, &mut shelf, &mut out, &mut notes)?;
        let want = if call < 6 { 8 } else { 9 };
        assert!(rt;
            status == want && are_kept(rt.alloc(), &shelf, "r")? == (call < 7),
            "{call}"
        );
        assert!(rt; holds(&shelf, "r", rules.as_slice()));
    }
    Ok(())
}
