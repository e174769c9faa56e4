//! Layouts that are checked, and what is found of them.

use crate::support::{
    CHECK, TWO_JOINED, ended, is_done, is_ended, is_ended_in, shelf_of, shelf_with, text_with,
};
use samples::{BUFFER, CELLS, INVERTER, RULES, design_text};
use shelf_io::{MemShelf, MemSink};
use std::alloc::{AllocError, Global};
use std::test::Fail;

/// Two buffers of one net.
pub(crate) const JOINED: &str = "u1 BUF n1;\nu2 BUF n1;\n";

/// A shelf with the sample rules, the design of these calls of buffers and the text of a layout.
pub(crate) fn checked_shelf(
    alloc: Global,
    calls: &str,
    text: &str,
) -> Result<MemShelf, AllocError> {
    let mut shelf = shelf_of(alloc, RULES, BUFFER, calls)?;
    shelf.set("c", text.as_bytes())?;
    Ok(shelf)
}

/// Whether `check d r c` over the design of these calls of buffers and this layout ends so and prints these lines.
pub(crate) fn is_checked(
    alloc: Global,
    calls: &str,
    text: &str,
    status: u8,
    lines: &str,
) -> Result<bool, AllocError> {
    let mut shelf = checked_shelf(alloc, calls, text)?;
    is_ended(alloc, CHECK, &mut shelf, status, lines)
}

#[test]
fn a_good_layout(rt: HostRuntime) -> Result<(), Fail> {
    let alloc = rt.alloc();
    assert!(rt; is_checked(alloc, JOINED, TWO_JOINED, 0, "findings 0\n")?);
    assert!(rt; is_checked(alloc, "", "(cellroute 1);\nE\n", 0, "findings 0\n")?);
    Ok(())
}

/// The layout of two joined buffers with a piece of its text replaced, and the lines that are printed then, with a bar between the cases and a stroke between the parts.
const BROKEN: &str = "\
91 u2;\n/91 u1;\n/Missing u2\nDoubled u1\nfindings 2\n|\
91 u2;\n//Missing u2\nfindings 1\n|\
E\n/91 u1;\nC 1 T 1600 800;\nE\n/Doubled u1\nfindings 1\n|\
E\n/91 u3;\nC 1 T 1600 800;\nE\n/Strange u3\nfindings 1\n|\
9 BUF;/9 BUG;/Drawing u1\nDrawing u2\nfindings 2\n|\
E\n/L XP;\nB 800 4000 400 2800;\nE\n/Overlap 0 13\nfindings 1\n|\
E\n/L XP;\nB 200 200 3000 2000;\nE\n/OutOfRow 0 13\nOutOfRow 2 13\nfindings 2\n|\
B 1200 300 800 5600;/B 1200 200 800 5600;/Narrow 6\nfindings 1\n|\
E\n/L NM;\nB 300 300 800 6100;\nE\n/Close 6 13\nClose 7 13\nClose 10 13\nfindings 3\n|\
B 200 200 1200 5600;/B 200 200 1300 5600;/BareCut 12\nfindings 1\n|\
B 200 200 1200 5600;\n//Open u1 y u2 y\nfindings 1\n";

/// Whether a case prints its lines.
pub(crate) fn is_case(alloc: Global, case: &str) -> Result<bool, AllocError> {
    let Some((old, change)) = case.split_once("/") else {
        return Ok(false);
    };
    let Some((new, lines)) = change.split_once("/") else {
        return Ok(false);
    };
    let text = text_with(alloc, TWO_JOINED, old, new)?;
    is_checked(alloc, JOINED, text.as_str(), 1, lines)
}

#[test]
fn each_kind_of_finding(rt: HostRuntime) -> Result<(), Fail> {
    for case in BROKEN.split('|') {
        assert!(rt; is_case(rt.alloc(), case)?, "{case}");
    }
    // The same layout for a design of two nets.
    let calls = "u1 BUF n1;\nu2 BUF n2;\n";
    assert!(rt;
        is_checked(
            rt.alloc(),
            calls,
            TWO_JOINED,
            1,
            "Short u1 y u2 y\nfindings 1\n"
        )?
    );
    Ok(())
}

/// Texts that give no layout, and the kind and place that are printed, with a bar between the cases and a stroke between the parts.
const REFUSED: &str = "\
DS 1 1 2; L NM; B 3 4 2 2; DF; C 1; E/Inexact 2|\
C 2; E/Undefined 0|\
C 2;/NoEnd 4|\
P 1 1 2 2 3 3; E/Turned 0|\
R 10 0 0; E/LeftOut 0|\
C 1 R 1 1; E/Turned 0|\
DS 1; DF; DS 1; DF; E/Twice 2|\
L NM; B 2 2 4000000000 0; E/TooFar 1|\
B 2 2 0 0; E/NoLayer 0|\
DS 1; DF; 91 u; C 1; E/NoSymbolName 3|\
B 2000000000000 2 0 0; E/Number 2|\
(a/Unclosed 0|\
X; E/BadCommand 0|\
\u{e9}/NotAscii 0";

/// Whether a text is refused with its kind and place.
pub(crate) fn is_refused_text(alloc: Global, case: &str) -> Result<bool, AllocError> {
    let Some((text, fault)) = case.split_once("/") else {
        return Ok(false);
    };
    let line = format!(in alloc; "cif {fault}\n")?;
    is_checked(alloc, JOINED, text, 7, line.as_str())
}

/// Symbols of which each calls the one before it twice: so many of them.
fn doubling(alloc: Global, count: u32) -> Result<String, AllocError> {
    let mut text = String::new(alloc);
    text.push_str("DS 1; L NM; B 2 2 1 1; DF;")?;
    let mut last = 1u32;
    for n in 2..count {
        write!(text, "DS {n}; C {last}; C {last}; DF;")?;
        last = n;
    }
    write!(text, "DS {count}; C {last}; C {last}; DF; E")?;
    Ok(text)
}

#[test]
fn texts_that_give_no_layout(rt: HostRuntime) -> Result<(), Fail> {
    for case in REFUSED.split('|') {
        assert!(rt; is_refused_text(rt.alloc(), case)?, "{case}");
    }
    let many = doubling(rt.alloc(), 23)?;
    assert!(rt; is_checked(rt.alloc(), JOINED, many.as_str(), 7, "cif TooMany 90\n")?);
    Ok(())
}

/// Whether these words are no command.
fn is_usage(alloc: Global, text: &str) -> Result<bool, AllocError> {
    let mut shelf = checked_shelf(alloc, JOINED, TWO_JOINED)?;
    is_ended(alloc, text, &mut shelf, 2, "usage\n")
}

/// Words that are no command, one such in a line.
const NO_COMMANDS: &str = "\
check\n\
check|d|r\n\
check|d|r|c|x\n\
check|d|r|c|--seed|1\n\
check|d|r|c|--ports|--ports\n\
check|d|r|c|--ports=x\n\
Check|d|r|c";

#[test]
fn words_of_a_check(rt: HostRuntime) -> Result<(), Fail> {
    for words in NO_COMMANDS.split('\n') {
        assert!(rt; is_usage(rt.alloc(), words)?, "{words}");
    }
    let mut shelf = checked_shelf(rt.alloc(), JOINED, TWO_JOINED)?;
    assert!(rt; is_ended(rt.alloc(), "check|--|d|r|c", &mut shelf, 0, "findings 0\n")?);
    Ok(())
}

/// Whether `check d r c` over these rules, this design and no layout is refused so.
fn is_first(
    alloc: Global,
    rules: &str,
    design: &str,
    status: u8,
    line: &str,
) -> Result<bool, AllocError> {
    let mut shelf = shelf_with(alloc, rules, design)?;
    is_ended(alloc, CHECK, &mut shelf, status, line)
}

/// Rules and designs, and the status and the line of their first cause.
const FIRST: [(&str, &str, u8, &str); 3] = [
    ("", "MODULE ;", 4, "rules Missing version\n"),
    (RULES, "MODULE ;", 3, "yal Word 7\n"),
    (RULES, INVERTER, 5, "design NoParent\n"),
];

/// The rules go before the design, and the design before the layout's file, also where that is not there.
#[test]
fn the_first_cause_is_said(rt: HostRuntime) -> Result<(), Fail> {
    for case in &FIRST {
        assert!(rt;
            is_first(rt.alloc(), case.0, case.1, case.2, case.3)?,
            "{}",
            case.3
        );
    }
    let design = design_text(rt.alloc(), INVERTER, "u1 INV n1;\n")?;
    assert!(rt; is_first(rt.alloc(), RULES, design.as_str(), 8, "read fault\n")?);
    Ok(())
}

/// Whether a file of the shelf has this text.
fn is_text(shelf: &MemShelf, name: &str, text: &str) -> bool {
    shelf.get(name) == Some(text.as_bytes())
}

/// Two crossed nets in two rows.
const CROSSED: &str = "u1 BUF b;\nu2 BUF a;\nu3 INV a;\nu4 INV b;\n";

/// What was routed is checked, and nothing is kept then.
#[test]
fn what_is_written_is_good(rt: HostRuntime) -> Result<(), Fail> {
    let mut shelf = shelf_of(rt.alloc(), RULES, CELLS, CROSSED)?;
    assert!(rt; is_done(rt.alloc(), "route|d|r|c|--rows|2", &mut shelf)?);
    let mut out = MemSink::new(rt.alloc())?;
    let end = ended(rt.alloc(), CHECK, &mut shelf, &mut out)?;
    assert!(rt; end.status == 0 && end.kept.is_empty());
    Ok(())
}

/// Nothing is written by a check.
#[test]
fn a_check_writes_nothing(rt: HostRuntime) -> Result<(), Fail> {
    let mut shelf = checked_shelf(rt.alloc(), JOINED, TWO_JOINED)?;
    assert!(rt; is_ended(rt.alloc(), CHECK, &mut shelf, 0, "findings 0\n")?);
    assert!(rt; is_text(&shelf, "c", TWO_JOINED) && is_text(&shelf, "r", RULES));
    Ok(())
}

/// Whether a check of a good layout, whose line is cut off by a failure of the sink's call of this number, ends with 9 and prints this. The sink takes a byte at a
/// time.
fn is_cut_off(alloc: Global, call: u64, text: &str) -> Result<bool, AllocError> {
    let mut shelf = checked_shelf(alloc, JOINED, TWO_JOINED)?;
    let mut out = MemSink::new(alloc)?;
    out.most(1);
    out.fail_at(call)?;
    is_ended_in(alloc, CHECK, &mut shelf, &mut out, 9, text)
}

/// The line of a write fault is tried where the findings could not be printed.
#[test]
fn a_sink_that_fails(rt: HostRuntime) -> Result<(), Fail> {
    assert!(rt; is_cut_off(rt.alloc(), 0, "write fault\n")?);
    assert!(rt; is_cut_off(rt.alloc(), 9, "findings write fault\n")?);
    assert!(rt; is_cut_off(rt.alloc(), 10, "findings 0write fault\n")?);
    Ok(())
}
