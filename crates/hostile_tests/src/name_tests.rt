//! Names of files that are equal.

use crate::support::{SUMMARY, TWO_JOINED, are_kept, begins_so, holds, is_ended, joined_shelf};
use std::alloc::{AllocError, Global};
use std::test::Fail;

/// Words in which names are equal, and how they end.
///
/// The sample rules as a design begin with a word that is not MODULE, and a design as rules is no TOML. A design as a layout begins with a letter that begins no command. The sample rules as a
/// layout begin with blanks (lower-case letters are) and then have a digit, and so a command that has no `;` behind it in all of their 314 bytes.
const REFUSED: [(&str, u8, &str); 12] = [
    ("route|r|r|o", 3, "yal Word 0\n"),
    ("route|r|r|r", 3, "yal Word 0\n"),
    ("route|d|d|o", 4, "rules Toml\n"),
    ("route|d|d|d", 4, "rules Toml\n"),
    ("route|r|d|o", 4, "rules Toml\n"),
    ("check|r|r|c", 3, "yal Word 0\n"),
    ("check|r|r|r", 3, "yal Word 0\n"),
    ("check|d|d|c", 4, "rules Toml\n"),
    ("check|d|d|d", 4, "rules Toml\n"),
    ("check|d|r|d", 7, "cif BadCommand 0\n"),
    ("check|d|r|r", 7, "cif NoEnd 314\n"),
    ("make|1|2|d|d", 4, "rules Toml\n"),
];

// Whether these words end so, and leave all files as they were.
fn is_refused(alloc: Global, text: &str, status: u8, line: &str) -> Result<bool, AllocError> {
    let mut shelf = joined_shelf(alloc)?;
    Ok(is_ended(alloc, text, &mut shelf, status, line)? && are_kept(alloc, &shelf, "")?)
}

#[test]
fn files_of_one_name_that_are_refused(rt: HostRuntime) -> Result<(), Fail> {
    for (words, status, line) in REFUSED {
        assert!(rt; is_refused(rt.alloc(), words, status, line)?, "{words}");
    }
    Ok(())
}

// Whether these words route into a file that they read, and leave the others as they were.
fn is_routed_into(alloc: Global, text: &str, out: &str) -> Result<bool, AllocError> {
    let mut shelf = joined_shelf(alloc)?;
    Ok(
        is_ended(alloc, text, &mut shelf, 0, SUMMARY)?
            && holds(&shelf, out, TWO_JOINED.as_bytes())
            && are_kept(alloc, &shelf, out)?,
    )
}

// Whether `make` writes into the file of the rules what it writes into another.
fn is_made_into_its_rules(alloc: Global) -> Result<bool, AllocError> {
    let mut apart = joined_shelf(alloc)?;
    let mut shelf = joined_shelf(alloc)?;
    let lines = "cells 1\nnets 2\n";
    let done = begins_so(alloc, "make|1|1|r|o", &mut apart, lines)?
        && begins_so(alloc, "make|1|1|r|r", &mut shelf, lines)?;
    Ok(done && shelf.get("r") == apart.get("o") && are_kept(alloc, &shelf, "r")?)
}

#[test]
fn a_file_that_is_read_and_written(rt: HostRuntime) -> Result<(), Fail> {
    assert!(rt; is_routed_into(rt.alloc(), "route|d|r|d", "d")?);
    assert!(rt; is_routed_into(rt.alloc(), "route|d|r|r", "r")?);
    assert!(rt; is_made_into_its_rules(rt.alloc())?);
    Ok(())
}
