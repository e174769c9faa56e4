//! Texts of help, and notes that are wished for or not.

use crate::support::{ended, inverter_shelf, is_ended, is_ended_in, stock_style, words};
use commands::run;
use shelf_io::{MemShelf, MemSink};
use std::alloc::{AllocError, Global};
use std::test::Fail;
use stock_styles::Stock;

/// What these words print over an empty shelf, if they end with 0.
fn printed(alloc: Global, text: &str) -> Result<Option<MemSink>, AllocError> {
    let mut shelf = MemShelf::new(alloc)?;
    let mut out = MemSink::new(alloc)?;
    if ended(alloc, text, &mut shelf, &mut out)?.status == 0 {
        Ok(Some(out))
    } else {
        Ok(None)
    }
}

/// Whether these words end with 0 and print what begins and ends so.
fn prints(alloc: Global, text: &str, front: &str, end: &str) -> Result<bool, AllocError> {
    match printed(alloc, text)? {
        Some(out) => Ok(
            out.bytes().starts_with(front.as_bytes()) && out.bytes().ends_with(end.as_bytes()),
        ),
        None => Ok(false),
    }
}

/// Words that ask for a text, and its first and its last words.
const ASKED: [(&str, &str, &str); 6] = [
    (
        "help",
        "cellroute lays out rows of standard cells, and checks layouts.\n",
        "says where.\n",
    ),
    ("--help", "cellroute lays out rows", "says where.\n"),
    ("-h", "cellroute lays out rows", "says where.\n"),
    (
        "help|route",
        "cellroute route DESIGN RULES OUT [OPTIONS]\n",
        "no notes on the standard error\n",
    ),
    (
        "help|check",
        "cellroute check DESIGN RULES CIF [OPTIONS]\n",
        "no notes on the standard error\n",
    ),
    (
        "help|make",
        "cellroute make SEED N RULES OUT [OPTIONS]\n",
        "no notes on the standard error\n",
    ),
];

#[test]
fn help_is_printed(rt: HostRuntime) -> Result<(), Fail> {
    for (words, front, end) in ASKED {
        assert!(rt; prints(rt.alloc(), words, front, end)?, "{words}");
    }
    let mut shelf = MemShelf::new(rt.alloc())?;
    assert!(rt; is_ended(rt.alloc(), "version", &mut shelf, 0, "cellroute 1\n")?);
    assert!(rt; is_ended(rt.alloc(), "--version", &mut shelf, 0, "cellroute 1\n")?);
    Ok(())
}

#[test]
fn help_that_cannot_be_printed(rt: HostRuntime) -> Result<(), Fail> {
    let mut shelf = MemShelf::new(rt.alloc())?;
    let mut out = MemSink::new(rt.alloc())?;
    out.fail_at(0)?;
    assert!(rt; is_ended_in(rt.alloc(), "help", &mut shelf, &mut out, 9, "write fault\n")?);
    Ok(())
}

/// What becomes of these words over this shelf: the status, and what the sinks for lines and for notes hold, of which the latter fails at its first call or not.
fn told(
    alloc: Global,
    text: &str,
    shelf: &mut MemShelf,
    fails: bool,
) -> Result<(u8, MemSink, MemSink), AllocError> {
    let words = words(alloc, text)?;
    let mut out = MemSink::new(alloc)?;
    let mut notes = MemSink::new(alloc)?;
    if fails {
        notes.fail_at(0)?;
    }
    let style = stock_style(alloc, Stock::Near)?;
    let ended = run(
        alloc,
        words.as_slice(),
        shelf,
        &mut out,
        &mut notes,
        &[style],
    );
    Ok((ended.status, out, notes))
}

/// Words with faults, their status and line, by a shelf with one inverter.
const FAULTS: [(&str, u8, &str); 4] = [
    ("route|d|r", 2, "usage\n"),
    ("route|x|r|o", 8, "read fault\n"),
    ("route|r|d|o", 4, "rules Toml\n"),
    ("check|d|r|d", 7, "cif BadCommand 0\n"),
];

#[test]
fn notes_change_nothing(rt: HostRuntime) -> Result<(), Fail> {
    for (words, status, line) in FAULTS {
        for fails in [false, true] {
            let mut shelf = inverter_shelf(rt.alloc())?;
            let (ended, out, notes) = told(rt.alloc(), words, &mut shelf, fails)?;
            assert_eq!(rt; ended, status, "{words}");
            assert_eq!(rt; out.bytes(), line.as_bytes(), "{words}");
            assert!(rt; fails || notes.bytes().ends_with(b"\n"), "{words}");
        }
    }
    Ok(())
}

#[test]
fn no_notes_where_none_are_wished_for(rt: HostRuntime) -> Result<(), Fail> {
    for words in [
        "route|x|r|o|-q",
        "route|x|r|o|--quiet",
        "check|d|r|d|-q",
        "make|1|2|x|o|-q",
    ] {
        let mut shelf = inverter_shelf(rt.alloc())?;
        let (ended, out, notes) = told(rt.alloc(), words, &mut shelf, false)?;
        assert!(rt; ended > 2, "{words}");
        assert!(rt; !out.bytes().is_empty(), "{words}");
        assert!(rt; notes.bytes().is_empty(), "{words}");
    }
    Ok(())
}
