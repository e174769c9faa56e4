//! What is printed of layouts that are written, and designs that are made.

use crate::support::{
    ONE_INVERTER, ROUTE, begins_so, ended, inverter_shelf, is_ended, rules_with, shelf_of,
};
use samples::{BUFFER, CELLS, INVERTER, POWERED, RULES};
use shelf_io::{MemShelf, MemSink};
use std::alloc::{AllocError, Global};
use std::test::Fail;

/// Whether these words over the design of these modules and calls end with 0 and print this summary.
fn is_told(
    alloc: Global,
    words: &str,
    modules: &str,
    calls: &str,
    text: &str,
) -> Result<bool, AllocError> {
    let mut shelf = shelf_of(alloc, RULES, modules, calls)?;
    is_ended(alloc, words, &mut shelf, 0, text)
}

/// The summary of a layout without cells.
const NO_CELLS: &str = "\
cells 0\n\
nets 0\n\
rows 1\n\
feeds 0\n\
channel 0 tracks 0 extra 0 greedy\n\
channel 1 tracks 0 extra 0 greedy\n\
size 0 1600\n\
cost 0\n";

/// That of one cell.
const ONE_CELL: &str = "\
cells 1\n\
nets 1\n\
rows 1\n\
feeds 0\n\
channel 0 tracks 0 extra 0 greedy\n\
channel 1 tracks 0 extra 0 greedy\n\
size 800 5600\n\
cost 0\n";

/// That of two joined cells.
const JOINED_CELLS: &str = "\
cells 2\n\
nets 1\n\
rows 1\n\
feeds 0\n\
channel 0 tracks 0 extra 0 greedy\n\
channel 1 tracks 1 extra 0 greedy\n\
size 1600 6400\n\
cost 1\n";

/// That of two cells with power terminals.
const APART_CELLS: &str = "\
cells 2\n\
nets 2\n\
rows 1\n\
feeds 0\n\
channel 0 tracks 0 extra 0 greedy\n\
channel 1 tracks 0 extra 0 greedy\n\
size 1600 5600\n\
cost 0\n";

/// That of two cells of one net in two rows.
const STRAIGHT: &str = "\
cells 2\n\
nets 1\n\
rows 2\n\
feeds 0\n\
channel 0 tracks 0 extra 0 greedy\n\
channel 1 tracks 0 extra 0 greedy\n\
channel 2 tracks 0 extra 0 greedy\n\
size 800 10400\n\
cost 4\n";

/// That of two crossed nets.
const CYCLE: &str = "\
cells 4\n\
nets 2\n\
rows 2\n\
feeds 0\n\
channel 0 tracks 0 extra 0 greedy\n\
channel 1 tracks 3 extra 1 greedy\n\
channel 2 tracks 0 extra 0 greedy\n\
size 2400 12800\n\
cost 10\n";

/// That of a net through four rows, which two feeds take across.
const FED: &str = "\
cells 4\n\
nets 3\n\
rows 4\n\
feeds 2\n\
channel 0 tracks 0 extra 0 greedy\n\
channel 1 tracks 0 extra 0 greedy\n\
channel 2 tracks 0 extra 0 greedy\n\
channel 3 tracks 0 extra 0 greedy\n\
channel 4 tracks 0 extra 0 greedy\n\
size 1600 20000\n\
cost 12\n";

/// That of the same net where a cell leads it through.
const THROUGH_CELL: &str = "\
cells 4\n\
nets 2\n\
rows 4\n\
feeds 1\n\
channel 0 tracks 0 extra 0 greedy\n\
channel 1 tracks 0 extra 0 greedy\n\
channel 2 tracks 0 extra 0 greedy\n\
channel 3 tracks 0 extra 0 greedy\n\
channel 4 tracks 0 extra 0 greedy\n\
size 1600 20000\n\
cost 12\n";

/// Words that route the design of these modules and calls, and the summary that they print.
const TOLD: [(&str, &str, &str, &str); 8] = [
    (ROUTE, "", "", NO_CELLS),
    (ROUTE, INVERTER, "u1 INV n1;\n", ONE_CELL),
    (ROUTE, BUFFER, "u1 BUF n1;\nu2 BUF n1;\n", JOINED_CELLS),
    (
        ROUTE,
        POWERED,
        "u1 PWI n1 VDD VSS;\nu2 PWI n2 VDD VSS;\n",
        APART_CELLS,
    ),
    (
        "route|d|r|o|--rows|2",
        CELLS,
        "u1 BUF n;\nu2 INV n;\n",
        STRAIGHT,
    ),
    (
        "route|d|r|o|--rows|2",
        CELLS,
        "u1 BUF b;\nu2 BUF a;\nu3 INV a;\nu4 INV b;\n",
        CYCLE,
    ),
    (
        "route|d|r|o|--rows|4",
        CELLS,
        "u1 BUF n;\nu2 INV p;\nu3 INV q;\nu4 INV n;\n",
        FED,
    ),
    (
        "route|d|r|o|--rows|4",
        CELLS,
        "u1 BUF n;\nu2 THR n;\nu3 INV q;\nu4 INV n;\n",
        THROUGH_CELL,
    ),
];

#[test]
fn layouts_are_told(rt: HostRuntime) -> Result<(), Fail> {
    for case in &TOLD {
        assert!(rt;
            is_told(rt.alloc(), case.0, case.1, case.2, case.3)?,
            "{}",
            case.2
        );
    }
    Ok(())
}

/// Whether routing the inverter where this call of the sink fails ends with 9, prints this, and leaves the whole layout and its channels.
fn is_cut_off(alloc: Global, call: u64, text: &str) -> Result<bool, AllocError> {
    let mut shelf = inverter_shelf(alloc)?;
    let mut out = MemSink::new(alloc)?;
    out.fail_at(call)?;
    let end = ended(alloc, ROUTE, &mut shelf, &mut out)?;
    Ok(
        end.status == 9
            && end.kept.len() == 2
            && out.bytes() == text.as_bytes()
            && shelf.get("o") == Some(ONE_INVERTER.as_bytes()),
    )
}

/// Each line of a summary is put in one piece, and the line of a write fault is tried behind a front of it.
#[test]
fn a_sink_that_fails(rt: HostRuntime) -> Result<(), Fail> {
    assert!(rt; is_cut_off(rt.alloc(), 0, "write fault\n")?);
    assert!(rt; is_cut_off(rt.alloc(), 1, "cells 1\nwrite fault\n")?);
    assert!(rt; is_cut_off(rt.alloc(), 3, "cells 1\nnets 1\nrows 1\nwrite fault\n")?);
    Ok(())
}

/// The first lines of the summary of a made design of 500 cells.
const FIVE_HUNDRED: &str = "cells 500\nnets 625\nrows 39\n";

#[test]
fn a_design_that_is_made_and_annealed(rt: HostRuntime) -> Result<(), Fail> {
    let rules = rules_with(rt.alloc(), "stages = 0", "stages = 20")?;
    let mut shelf = MemShelf::new(rt.alloc())?;
    shelf.set("r", rules.as_bytes())?;
    let front = "cells 60\nnets 75\nrows 14\n";
    assert!(rt; begins_so(rt.alloc(), "make|7|60|r|o", &mut shelf, front)?);
    Ok(())
}

#[test]
fn a_design_that_is_made_twice(rt: HostRuntime) -> Result<(), Fail> {
    let mut shelf = MemShelf::new(rt.alloc())?;
    shelf.set("r", RULES.as_bytes())?;
    assert!(rt; begins_so(rt.alloc(), "make|1|500|r|o", &mut shelf, FIVE_HUNDRED)?);
    assert!(rt; begins_so(rt.alloc(), "make|1|500|r|p", &mut shelf, FIVE_HUNDRED)?);
    assert!(rt; shelf.get("o") == shelf.get("p"));
    Ok(())
}

/// Whether `make` with these words is refused so under these rules, which no design goes with.
fn is_unmade(
    alloc: Global,
    rules: &str,
    words: &str,
    status: u8,
    line: &str,
) -> Result<bool, AllocError> {
    let mut shelf = MemShelf::new(alloc)?;
    shelf.set("r", rules.as_bytes())?;
    is_ended(alloc, words, &mut shelf, status, line)
}

/// Words that are no command, one such in a line.
const NO_COMMANDS: &str = "\
make\n\
make|1|5|r\n\
make|1|5|r|o|x\n\
make|x|5|r|o\n\
make|1|0|r|o\n\
make|1|20001|r|o\n\
make|1|5|r|o|--rows|2";

#[test]
fn words_that_make_nothing(rt: HostRuntime) -> Result<(), Fail> {
    for words in NO_COMMANDS.split('\n') {
        assert!(rt;
            is_unmade(rt.alloc(), RULES, words, 2, "usage\n")?,
            "{words}"
        );
    }
    Ok(())
}

#[test]
fn limits_of_what_is_made(rt: HostRuntime) -> Result<(), Fail> {
    assert!(rt; is_unmade(rt.alloc(), "", "make|1|5|r|o", 4, "rules Missing version\n")?);
    assert!(rt; is_unmade(rt.alloc(), RULES, "make|1|5|q|o", 8, "read fault\n")?);
    let rules = rules_with(
        rt.alloc(),
        "stages = 0\nmoves = 4",
        "stages = 1000\nmoves = 1000",
    )?;
    let line = "limit Moves 51000000\n";
    assert!(rt; is_unmade(rt.alloc(), rules.as_str(), "make|1|51|r|o", 6, line)?);
    Ok(())
}
