//! Designs and the texts of their layouts.

use crate::support::{
    ONE_INVERTER, ROUTE, TWO_JOINED, inverter_shelf, is_done, is_ended, is_routed, rules_with,
    shelf_of, shelf_with,
};
use samples::{BUFFER, CELLS, INVERTER, POWERED, RING, RULES, THROUGH, design_text};
use shelf_io::MemShelf;
use std::alloc::{AllocError, Global};
use std::test::Fail;

const TWO_INVERTERS: &str =
    "(cellroute 1);\nDS 1 1 1;\n9 INV;\nL XP;\nB 800 4000 400 2000;\nL NP;\nB 300 400 400 200;\nDF;\n91 u1;\nC 1 T 0 800;\n91 u2;\nC 1 T 800 800;\nE\n";

const ONE_THROUGH: &str =
    "(cellroute 1);\nDS 1 1 1;\n9 THR;\nL XP;\nB 800 4000 400 2000;\nL NP;\nB 300 400 400 200;\nB 300 400 400 3800;\nDF;\n91 u1;\nC 1 T 0 800;\nE\n";

const TWO_POWERED: &str =
    "(cellroute 1);\nDS 1 1 1;\n9 PWI;\nL XP;\nB 800 4000 400 2000;\nL NP;\nB 300 400 400 200;\nDF;\n91 u1;\nC 1 T 0 800;\n91 u2;\nC 1 T 800 800;\nE\n";

/// Whether a file of the shelf has this text.
fn is_text(shelf: &MemShelf, name: &str, text: &str) -> bool {
    shelf.get(name) == Some(text.as_bytes())
}

// Whether `route d r o` gives this layout for the design of these modules and calls, and leaves its two files as they are.
fn is_layout(alloc: Global, modules: &str, calls: &str, want: &str) -> Result<bool, AllocError> {
    let design = design_text(alloc, modules, calls)?;
    let mut shelf = shelf_with(alloc, RULES, design.as_str())?;
    Ok(
        is_routed(alloc, &mut shelf)?
            && is_text(&shelf, "o", want)
            && is_text(&shelf, "d", design.as_str())
            && is_text(&shelf, "r", RULES),
    )
}

/// Modules, calls and the layouts of these designs.
const LAYOUTS: [(&str, &str, &str); 6] = [
    (INVERTER, "u1 INV n1;\n", ONE_INVERTER),
    // Two unjoined cells.
    (INVERTER, "u1 INV n1;\nu2 INV n2;\n", TWO_INVERTERS),
    ("", "", "(cellroute 1);\nE\n"),
    // Two joined cells.
    (BUFFER, "u1 BUF n1;\nu2 BUF n1;\n", TWO_JOINED),
    // A terminal with two positions.
    (THROUGH, "u1 THR n;\n", ONE_THROUGH),
    (
        POWERED,
        "u1 PWI n1 VDD VSS;\nu2 PWI n2 VDD VSS;\n",
        TWO_POWERED,
    ),
];

#[test]
fn designs_and_their_texts(rt: HostRuntime) -> Result<(), Fail> {
    for case in &LAYOUTS {
        assert!(rt;
            is_layout(rt.alloc(), case.0, case.1, case.2)?,
            "{}",
            case.1
        );
    }
    Ok(())
}

#[test]
fn the_rules_are_those_of_the_file(rt: HostRuntime) -> Result<(), Fail> {
    let rules = rules_with(rt.alloc(), "centi = 100", "centi = 4")?;
    let mut shelf = shelf_of(rt.alloc(), rules.as_str(), INVERTER, "u1 INV n1;\n")?;
    assert!(rt; is_routed(rt.alloc(), &mut shelf)?);
    let want =
        "(cellroute 1);\nDS 1 1 1;\n9 INV;\nL XP;\nB 32 160 16 80;\nL NP;\nB 12 16 16 8;\nDF;\n91 u1;\nC 1 T 0 32;\nE\n";
    assert!(rt; is_text(&shelf, "o", want));
    Ok(())
}

#[test]
fn an_unused_module_changes_nothing(rt: HostRuntime) -> Result<(), Fail> {
    let modules = format!(in rt.alloc(); "{RING}{INVERTER}")?;
    assert!(rt; is_layout(rt.alloc(), modules.as_str(), "u1 INV n1;\n", ONE_INVERTER)?);
    Ok(())
}

// Whether these words write the layout of the inverter there.
fn is_written(alloc: Global, text: &str, out: &str) -> Result<bool, AllocError> {
    let mut shelf = inverter_shelf(alloc)?;
    Ok(is_done(alloc, text, &mut shelf)? && is_text(&shelf, out, ONE_INVERTER))
}

#[test]
fn a_file_that_is_read_may_be_written(rt: HostRuntime) -> Result<(), Fail> {
    assert!(rt; is_written(rt.alloc(), "route|d|r|d", "d")?);
    assert!(rt; is_written(rt.alloc(), "route|d|r|r", "r")?);
    Ok(())
}

// A shelf with the inverter and two more files, that takes and gives at most 100 bytes at once, and whose call of this number fails.
fn failing_shelf(alloc: Global, call: u64) -> Result<MemShelf, AllocError> {
    let mut shelf = inverter_shelf(alloc)?;
    shelf.set("o", b"old")?;
    shelf.set("other", b"stays")?;
    shelf.most(100);
    shelf.fail_at(call)?;
    Ok(shelf)
}

// Whether all files but `o` are as they were.
fn are_kept(alloc: Global, shelf: &MemShelf) -> Result<bool, AllocError> {
    let design = design_text(alloc, INVERTER, "u1 INV n1;\n")?;
    Ok(
        is_text(shelf, "d", design.as_str())
            && is_text(shelf, "r", RULES)
            && is_text(shelf, "other", "stays"),
    )
}

// The first bytes of a text.
fn front(text: &str, count: usize) -> &[u8] {
    &text.as_bytes()[..count.min(text.len())]
}

// Whether `route d r o` ends so where this call of the shelf fails, and leaves this under `o`.
fn fails_at(
    alloc: Global,
    call: u64,
    status: u8,
    line: &str,
    held: &[u8],
) -> Result<bool, AllocError> {
    let mut shelf = failing_shelf(alloc, call)?;
    Ok(
        is_ended(alloc, ROUTE, &mut shelf, status, line)?
            && shelf.get("o") == Some(held)
            && are_kept(alloc, &shelf)?,
    )
}

/// A design whose text is put at most `most` bytes at a time, and how many bytes OUT holds where this call of the shelf fails. Before the puts stand two takes of
/// the rules, two of the design, and `begin`, so that call 5 is the first put.
struct Cut {
    modules: &'static str,
    calls: &'static str,
    text: &'static str,
    most: usize,
    call: u64,
    held: usize,
}

const CUTS: [Cut; 6] = [
    // Texts of 110, 132 and 362 bytes.
    Cut {
        modules: INVERTER,
        calls: "u1 INV n1;\n",
        text: ONE_INVERTER,
        most: 50,
        call: 7,
        held: 100,
    },
    Cut {
        modules: INVERTER,
        calls: "u1 INV n1;\nu2 INV n2;\n",
        text: TWO_INVERTERS,
        most: 64,
        call: 7,
        held: 128,
    },
    Cut {
        modules: INVERTER,
        calls: "u1 INV n1;\nu2 INV n2;\n",
        text: TWO_INVERTERS,
        most: 64,
        call: 8,
        held: 132,
    },
    Cut {
        modules: BUFFER,
        calls: "u1 BUF n1;\nu2 BUF n1;\n",
        text: TWO_JOINED,
        most: 100,
        call: 8,
        held: 300,
    },
    Cut {
        modules: BUFFER,
        calls: "u1 BUF n1;\nu2 BUF n1;\n",
        text: TWO_JOINED,
        most: 100,
        call: 9,
        held: 362,
    },
    Cut {
        modules: BUFFER,
        calls: "u1 BUF n1;\nu2 BUF n1;\n",
        text: TWO_JOINED,
        most: 361,
        call: 6,
        held: 361,
    },
];

// Whether a text is so cut.
fn is_cut(alloc: Global, case: &Cut) -> Result<bool, AllocError> {
    let mut shelf = shelf_of(alloc, RULES, case.modules, case.calls)?;
    shelf.most(case.most.max(1));
    shelf.fail_at(case.call)?;
    let whole = case.held == case.text.len();
    let ended = if whole {
        is_routed(alloc, &mut shelf)?
    } else {
        is_ended(alloc, ROUTE, &mut shelf, 9, "write fault\n")?
    };
    Ok(ended && shelf.get("o") == Some(front(case.text, case.held)))
}

#[test]
fn texts_are_put_piece_by_piece(rt: HostRuntime) -> Result<(), Fail> {
    for case in &CUTS {
        assert!(rt; is_cut(rt.alloc(), case)?, "{} {}", case.most, case.call);
    }
    Ok(())
}

/// The status, the line, and how many bytes of which text are left where each call of the shelf fails: two takes of the rules, two of the design, `begin`, and
/// two pieces.
const FAILURES: [(u8, &str, &str, usize); 7] = [
    (8, "read fault\n", "old", 3),
    (8, "read fault\n", "old", 3),
    (8, "read fault\n", "old", 3),
    (8, "read fault\n", "old", 3),
    (9, "write fault\n", "old", 3),
    (9, "write fault\n", ONE_INVERTER, 0),
    (9, "write fault\n", ONE_INVERTER, 100),
];

#[test]
fn each_failure_of_the_shelf(rt: HostRuntime) -> Result<(), Fail> {
    let mut call = 0u64;
    for case in &FAILURES {
        assert!(rt;
            fails_at(rt.alloc(), call, case.0, case.1, front(case.2, case.3))?,
            "at {call}"
        );
        call = call.saturating_add(1);
    }
    Ok(())
}

// Whether a layout calls so many cells and feeds, and the last cell lies here.
fn has_copies(shelf: &MemShelf, copies: usize, last: &str) -> bool {
    let Some(written) = shelf.get("o") else {
        return false;
    };
    match str::from_utf8(written) {
        Ok(text) => text.matches("\nC ").count() == copies && text.contains(last),
        Err(_) => false,
    }
}

/// Words that route these calls, how many cells and feeds the layout calls, and where the last cell lies.
struct Threaded {
    words: &'static str,
    calls: &'static str,
    copies: usize,
    last: &'static str,
}

const THREADED: [Threaded; 4] = [
    // A net across its own row.
    Threaded {
        words: "route|d|r|o|--rows|1",
        calls: "u1 BUF n;\nu2 INV n;\n",
        copies: 3,
        last: "C 1 T 1600 1600;\n",
    },
    // Two crossed nets.
    Threaded {
        words: "route|d|r|o|--rows|2",
        calls: "u1 BUF b;\nu2 BUF a;\nu3 INV a;\nu4 INV b;\n",
        copies: 4,
        last: "C 1 T 800 8000;\n",
    },
    // A net through four rows.
    Threaded {
        words: "route|d|r|o|--rows|4",
        calls: "u1 BUF n;\nu2 INV p;\nu3 INV q;\nu4 INV n;\n",
        copies: 6,
        last: "C 1 T 0 15200;\n",
    },
    // A cell that leads through.
    Threaded {
        words: "route|d|r|o|--rows|4",
        calls: "u1 BUF n;\nu2 THR n;\nu3 INV q;\nu4 INV n;\n",
        copies: 5,
        last: "C 1 T 0 15200;\n",
    },
];

// Whether these calls are laid out so.
fn is_threaded(alloc: Global, case: &Threaded) -> Result<bool, AllocError> {
    let mut shelf = shelf_of(alloc, RULES, CELLS, case.calls)?;
    Ok(is_done(alloc, case.words, &mut shelf)? && has_copies(&shelf, case.copies, case.last))
}

#[test]
fn nets_through_rows_and_channels(rt: HostRuntime) -> Result<(), Fail> {
    for case in &THREADED {
        assert!(rt; is_threaded(rt.alloc(), case)?, "{}", case.calls);
    }
    Ok(())
}
