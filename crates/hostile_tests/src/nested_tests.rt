//! Layouts of definitions that call one another, too deep, too many and too far.

use crate::support::{CHECK, is_ended};
use samples::{RULES, design_text};
use shelf_io::MemShelf;
use std::alloc::{AllocError, Global};
use std::test::Fail;

/// Definitions: what the first is, the number of the last, the calls of the one before it in each but the first, with `#` for its number, and what stands behind all; then how `check` ends over them and a design without cells.
struct Nested {
    first: &'static str,
    last: u32,
    calls: &'static [&'static str],
    end: &'static str,
    status: u8,
    line: &'static str,
}

const BOX: &str = "DS 1; L NM; B 2 2 0 0; DF;\n";

const EMPTY: &str = "DS 1; DF;\n";

/// The box makes four commands of the first definition, and an empty one has two; each other has its start, its calls and its end.
const NESTED: [Nested; 9] = [
    // Depth 65 comes with the call in the 65th definition: behind 4 commands, 63 definitions of 3, and a start.
    Nested {
        first: BOX,
        last: 65,
        calls: &["C #;"],
        end: "E",
        status: 7,
        line: "cif TooDeep 194\n",
    },
    Nested {
        first: BOX,
        last: 20_000,
        calls: &["C #;"],
        end: "E",
        status: 7,
        line: "cif TooDeep 194\n",
    },
    // 64 definitions may stand, and the last not be called.
    Nested {
        first: BOX,
        last: 64,
        calls: &["C #;"],
        end: "C 64; E",
        status: 7,
        line: "cif TooDeep 193\n",
    },
    // Through 63 the box is shown, which is narrower than 300.
    Nested {
        first: BOX,
        last: 63,
        calls: &["C #;"],
        end: "C 63; E",
        status: 1,
        line: "Narrow 0\nfindings 1\n",
    },
    // Each goes 100,000,000 on, and so the 21st shows a box up to 4,000,000,002 half centimicrons: behind 4 commands, 19 definitions of 3, and a start.
    Nested {
        first: BOX,
        last: 30,
        calls: &["C # T 100000000 0;"],
        end: "E",
        status: 7,
        line: "cif TooFar 62\n",
    },
    // Twice as many each time are 2^22 in the 23rd: behind 4 commands, 21 definitions of 4, a start and a call.
    Nested {
        first: BOX,
        last: 60,
        calls: &["C #;", "C #;"],
        end: "E",
        status: 7,
        line: "cif TooMany 90\n",
    },
    // So are two calls of the 22nd at the main level.
    Nested {
        first: BOX,
        last: 22,
        calls: &["C #;", "C #;"],
        end: "C 22; C 22; E",
        status: 7,
        line: "cif TooMany 89\n",
    },
    // Nothing, 2^62 times.
    Nested {
        first: EMPTY,
        last: 63,
        calls: &["C #;", "C #;"],
        end: "C 63; C 63; E",
        status: 0,
        line: "findings 0\n",
    },
    // One far call.
    Nested {
        first: BOX,
        last: 1,
        calls: &[],
        end: "C 1 T 2000000001 0; E",
        status: 7,
        line: "cif TooFar 4\n",
    },
];

// Puts a definition of this number.
fn put_definition(
    alloc: Global,
    text: &mut String,
    number: u32,
    calls: &[&str],
) -> Result<(), AllocError> {
    let before = format!(in alloc; "{}", number.saturating_sub(1))?;
    write!(text, "DS {number};")?;
    for call in calls {
        let (front, back) = call.split_once('#').unwrap_or((*call, ""));
        text.push_str(front)?;
        text.push_str(before.as_str())?;
        text.push_str(back)?;
    }
    text.push_str("DF;\n")
}

// The text of such definitions, without what stands behind them.
fn definitions(
    alloc: Global,
    first: &str,
    last: u32,
    calls: &[&str],
) -> Result<String, AllocError> {
    let mut text = String::from_str(alloc, first)?;
    for number in 2..=last {
        put_definition(alloc, &mut text, number, calls)?;
    }
    Ok(text)
}

/// Whether `check` over this layout and a design without cells ends so.
pub(crate) fn is_checked_so(
    alloc: Global,
    layout: &str,
    status: u8,
    line: &str,
) -> Result<bool, AllocError> {
    let design = design_text(alloc, "", "")?;
    let mut shelf = MemShelf::new(alloc)?;
    shelf.set("r", RULES.as_bytes())?;
    shelf.set("d", design.as_bytes())?;
    shelf.set("c", layout.as_bytes())?;
    is_ended(alloc, CHECK, &mut shelf, status, line)
}

// Whether a case ends so.
fn is_case(alloc: Global, case: &Nested) -> Result<bool, AllocError> {
    let mut text = definitions(alloc, case.first, case.last, case.calls)?;
    text.push_str(case.end)?;
    is_checked_so(alloc, text.as_str(), case.status, case.line)
}

#[test]
fn definitions_that_call_one_another(rt: HostRuntime) -> Result<(), Fail> {
    for case in &NESTED {
        assert!(rt; is_case(rt.alloc(), case)?, "{} {}", case.last, case.line);
    }
    Ok(())
}

/// 22 definitions, of which the last shows 2^21 boxes, and 40 more that call it once; none is called at the main level.
#[test]
fn definitions_that_are_not_called(rt: HostRuntime) -> Result<(), Fail> {
    let mut text = definitions(rt.alloc(), BOX, 22, &["C #;", "C #;"])?;
    for number in 23..=62u32 {
        write!(text, "DS {number}; C 22; DF;\n")?;
    }
    text.push_str("E")?;
    assert!(rt; is_checked_so(rt.alloc(), text.as_str(), 0, "findings 0\n")?);
    Ok(())
}
