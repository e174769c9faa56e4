//! Files in which one thing is very long or stands very often.

ghost use Rattle.std.specs.Prelude.{◌≤◌, length, None};

use crate::nested_tests::is_checked_so;
use crate::support::{CHECK, ROUTE, SUMMARY, holds, is_ended, joined_shelf, status_of};
use samples::{RULES, design_text};
use shelf_io::{Failed, MemSink, NeverShelf, Shelf};
use std::alloc::{AllocError, Global};
use std::test::Fail;

/// A text: what stands before so many copies of a piece, the piece, how many there are, and what stands behind; and how a command ends over it.
type Long = (
    &'static str,
    &'static str,
    u32,
    &'static str,
    u8,
    &'static str,
);

// Such a text.
fn long_text(alloc: Global, case: &Long) -> Result<String, AllocError> {
    let mut text = String::from_str(alloc, case.0)?;
    for _ in 0..case.2 {
        text.push_str(case.1)?;
    }
    text.push_str(case.3)?;
    Ok(text)
}

/// Layouts, which are checked for a design without cells.
const LAYOUTS: [Long; 9] = [
    ("", "(", 1_000_000, "", 7, "cif Unclosed 0\n"),
    ("", "(", 1_000_000, "); E", 7, "cif Unclosed 0\n"),
    ("(", "()", 500_000, "); E", 0, "findings 0\n"),
    ("B 2 ", "9", 1_000_000, " 0 0; E", 7, "cif Number 4\n"),
    ("DS 1; DF; C ", "0", 1_000_000, "1; E", 0, "findings 0\n"),
    ("DS 1; DF; C 1", " R 0 1", 100_000, "; E", 0, "findings 0\n"),
    ("5 ", "x", 1_000_000, "; E", 0, "findings 0\n"),
    (";", "; ", 1_000_000, "X; E", 7, "cif BadCommand 2000001\n"),
    (
        "L NM; W 2 0 0",
        " 0 0",
        100_000,
        "",
        7,
        "cif NoEnd 400013\n",
    ),
];

#[test]
fn long_layouts(rt: HostRuntime) -> Result<(), Fail> {
    for case in &LAYOUTS {
        let text = long_text(rt.alloc(), case)?;
        assert!(rt;
            is_checked_so(rt.alloc(), text.as_str(), case.4, case.5)?,
            "{} {}",
            case.0,
            case.1
        );
    }
    Ok(())
}

/// Designs, which are routed.
const DESIGNS: [Long; 7] = [
    ("", ";", 1_000_000, "", 5, "design NoParent\n"),
    ("/*", " /*", 300_000, "", 3, "yal OpenComment 0\n"),
    ("/*", " /*", 300_000, "*/", 5, "design NoParent\n"),
    ("", "/**/", 250_000, "MODULE", 3, "yal Ends 1000006\n"),
    ("", "M", 1_000_000, ";", 3, "yal Word 0\n"),
    (
        "MODULE m; TYPE STANDARD; DIMENSIONS ",
        "9",
        1_000_000,
        ";",
        3,
        "yal Number 36\n",
    ),
    (
        "MODULE m; TYPE PARENT; NETWORK; u m",
        " n",
        500_000,
        "; ENDNETWORK; ENDMODULE;",
        5,
        "design NotStandard u\n",
    ),
];

// Whether `route` over this file under this name ends so, and leaves it and OUT as they were where it is refused.
fn is_routed_so(
    alloc: Global,
    name: &str,
    text: &str,
    status: u8,
    line: &str,
) -> Result<bool, AllocError> {
    let mut shelf = joined_shelf(alloc)?;
    shelf.set(name, text.as_bytes())?;
    let ended = is_ended(alloc, ROUTE, &mut shelf, status, line)?;
    let kept = status == 0 || holds(&shelf, "o", b"old");
    Ok(ended && kept && holds(&shelf, name, text.as_bytes()))
}

#[test]
fn long_designs(rt: HostRuntime) -> Result<(), Fail> {
    for case in &DESIGNS {
        let text = long_text(rt.alloc(), case)?;
        assert!(rt;
            is_routed_so(rt.alloc(), "d", text.as_str(), case.4, case.5)?,
            "{} {}",
            case.0,
            case.1
        );
    }
    Ok(())
}

/// Rules; behind them stand the sample rules.
const RULES_BEFORE: [Long; 5] = [
    ("", "[", 10_000, "\n", 4, "rules Toml\n"),
    ("x = ", "[", 10_000, "\n", 4, "rules Toml\n"),
    ("x = ", "{a = ", 10_000, "\n", 4, "rules Toml\n"),
    ("x = \"", "\\", 1_000_000, "\n", 4, "rules Toml\n"),
    ("#", " ", 1_000_000, "\n", 0, SUMMARY),
];

#[test]
fn long_rules(rt: HostRuntime) -> Result<(), Fail> {
    for case in &RULES_BEFORE {
        let mut text = long_text(rt.alloc(), case)?;
        text.push_str(RULES)?;
        assert!(rt;
            is_routed_so(rt.alloc(), "r", text.as_str(), case.4, case.5)?,
            "{} {}",
            case.0,
            case.1
        );
    }
    Ok(())
}

/// Words.
const WORDS: [Long; 4] = [
    ("route|d|r|o|--seed|", "1", 1_000_000, "", 2, "usage\n"),
    ("route|d|r|o", "|o", 100_000, "", 2, "usage\n"),
    ("route|", "d", 1_000_000, "|r|o", 8, "read fault\n"),
    ("", "r", 1_000_000, "|d|r|o", 2, "usage\n"),
];

#[test]
fn long_words(rt: HostRuntime) -> Result<(), Fail> {
    for case in &WORDS {
        let text = long_text(rt.alloc(), case)?;
        let mut shelf = joined_shelf(rt.alloc())?;
        assert!(rt;
            is_ended(rt.alloc(), text.as_str(), &mut shelf, case.4, case.5)?
                && holds(&shelf, "o", b"old"),
            "{} {}",
            case.0,
            case.1
        );
    }
    Ok(())
}

/// A shelf that tells nothing, with files, and one of so many blanks under `c`, which are made as they are taken.
#[derive(Drop)]
struct BlankShelf {
    files: NeverShelf,
    blanks: u64,
}

// Fills a front of `into` with blanks, of which there are so many, from one of them on.
fn give_blanks(blanks: u64, at: u64, into: &mut [u8]) -> usize
    ensures { result ≤ length into.old }
{
    let left = blanks.saturating_sub(at);
    let n = if left < into.len() as u64 {
        left as usize
    } else {
        into.len()
    };
    for byte in into.iter_mut() {
        *byte = b' ';
    }
    n
}

impl Shelf for BlankShelf {
    ghost holds = { λ shelf name. None };

    ghost read_faults = { λ shelf name. 0 };

    ghost write_faults = { λ shelf name. 0 };

    fn take(&mut self, name: &str, at: u64, into: &mut [u8]) -> Result<usize, Failed> {
        if name == "c" {
            return Ok(give_blanks(self.blanks, at, into));
        }
        self.files.take(name, at, into)
    }

    fn begin(&mut self, name: &str) -> Result<(), Failed> {
        self.files.begin(name)
    }

    fn put(&mut self, name: &str, piece: &[u8]) -> Result<usize, Failed> {
        self.files.put(name, piece)
    }
}

// Whether `check` over a layout of so many blanks ends so, and notes this first.
fn are_blanks(
    alloc: Global,
    blanks: u64,
    status: u8,
    line: &str,
    note: &str,
) -> Result<bool, AllocError> {
    let design = design_text(alloc, "", "")?;
    let mut files = NeverShelf::new(alloc)?;
    files.set("r", RULES.as_bytes())?;
    files.set("d", design.as_bytes())?;
    let mut shelf = BlankShelf { files, blanks };
    let mut out = MemSink::new(alloc)?;
    let mut notes = MemSink::new(alloc)?;
    let ended = status_of(alloc, CHECK, &mut shelf, &mut out, &mut notes)?;
    Ok(
        ended == status
            && out.bytes() == line.as_bytes()
            && notes.bytes().starts_with(note.as_bytes()),
    )
}

/// A layout may have 268,435,456 bytes, and not one more.
#[test]
fn a_layout_of_blanks(rt: HostRuntime) -> Result<(), Fail> {
    assert!(rt;
        are_blanks(
            rt.alloc(),
            268_435_457,
            6,
            "limit Cif 268435456\n",
            "c: the file has more than 268435456 bytes, the most that it may have [limit Cif 268435456]\n"
        )?
    );
    assert!(rt;
        are_blanks(
            rt.alloc(),
            268_435_456,
            7,
            "cif NoEnd 268435456\n",
            "c:1:268435457: the text ends before its end command E, or before the ; of a command [cif NoEnd 268435456]\n"
        )?
    );
    Ok(())
}
