//! Texts that are written piece by piece.

use cif_writer::Writer;
use geom_core::{Name, Place};
use shelf_io::{Failed, MemShelf};
use std::alloc::{AllocError, Global};
use std::test::Fail;

const ORIGIN: Place = Place {
    dx: 0,
    dy: 0,
    mirror: false,
};

/// A text of 238 copies with names of one byte and one copy with a name of `last` bytes: its lines have 15 bytes, 238 times 6 and 11, 5 and `last` and 11, and 2,
/// together 4,079 and `last`. A put of the shelf takes at most `most` bytes, and its call with number `fail` fails, where 0 is the one that begins the file.
struct Case {
    last: usize,
    most: usize,
    fail: u64,
    whole: bool,
    held: usize,
}

const CASES: [Case; 6] = [
    // A text of 4,096 bytes goes out in one put: call 2 would be a second one.
    Case {
        last: 17,
        most: 5000,
        fail: 2,
        whole: true,
        held: 4096,
    },
    Case {
        last: 18,
        most: 5000,
        fail: 2,
        whole: false,
        held: 4096,
    },
    Case {
        last: 18,
        most: 5000,
        fail: 3,
        whole: true,
        held: 4097,
    },
    Case {
        last: 18,
        most: 100,
        fail: 3,
        whole: false,
        held: 200,
    },
    Case {
        last: 16,
        most: 5000,
        fail: 1,
        whole: false,
        held: 0,
    },
    Case {
        last: 16,
        most: 5000,
        fail: 2,
        whole: true,
        held: 4095,
    },
];

/// Writes the copies, and ends the text.
fn write_copies(
    writer: Writer,
    shelf: &mut MemShelf,
    short: &Name,
    long: &Name,
) -> Result<(), Failed> {
    let mut writer = writer;
    for _ in 0..238 {
        writer = writer.cell(shelf, "out", Some(short), 1, &ORIGIN)?;
    }
    writer = writer.cell(shelf, "out", Some(long), 1, &ORIGIN)?;
    writer.close(shelf, "out")
}

/// Whether a text of copies with these names is written to its end; None where it is not begun.
fn is_written(alloc: Global, shelf: &mut MemShelf, short: &Name, long: &Name) -> Option<bool> {
    match Writer::start(alloc, shelf, "out") {
        Ok(writer) => Some(write_copies(writer, shelf, short, long).is_ok()),
        Err(_) => None,
    }
}

/// The same of a long name of so many bytes.
fn is_long_written(
    alloc: Global,
    shelf: &mut MemShelf,
    short: &Name,
    last: usize,
) -> Result<Option<bool>, AllocError> {
    let long = Name::new(vec![in alloc; 98; last]?);
    Ok(is_written(alloc, shelf, short, &long))
}

/// The same with the short name.
fn are_both_written(
    alloc: Global,
    shelf: &mut MemShelf,
    last: usize,
) -> Result<Option<bool>, AllocError> {
    let short = Name::new("a".as_bytes().to_vec(alloc)?);
    is_long_written(alloc, shelf, &short, last)
}

/// Whether a shelf's file holds so many bytes, which begin as the text does.
fn holds_front(shelf: &MemShelf, count: usize) -> bool {
    match shelf.get("out") {
        Some(held) => {
            let text = "(cellroute 1);\n91 a;\nC 1 T 0 0;\n91 a;\n".as_bytes();
            let front = held.len().min(text.len());
            held.len() == count && held[..front] == text[..front]
        }
        None => false,
    }
}

/// Whether a case ends so, and its file then holds as many bytes, which begin as the text does.
fn is_so(alloc: Global, case: &Case) -> Result<bool, AllocError> {
    let mut shelf = MemShelf::new(alloc)?;
    shelf.most(case.most.max(1));
    shelf.fail_at(case.fail)?;
    let whole = are_both_written(alloc, &mut shelf, case.last)?;
    Ok(whole == Some(case.whole) && holds_front(&shelf, case.held))
}

#[test]
fn pieces_go_out_when_they_are_full_and_at_the_end(rt: HostRuntime) -> Result<(), Fail> {
    for case in &CASES {
        assert!(rt; is_so(rt.alloc(), case)?, "{} {}", case.last, case.fail);
    }
    Ok(())
}
