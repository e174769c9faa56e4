//! Words that give a command, and words that give none.

use crate::support::{inverter_shelf, is_done, is_ended, is_refused_in, shelf_of};
use samples::{INVERTER, RULES};
use shelf_io::MemShelf;
use std::alloc::{AllocError, Global};
use std::test::Fail;

/// Whether these words are no command.
fn is_usage(alloc: Global, text: &str) -> Result<bool, AllocError> {
    let mut shelf = inverter_shelf(alloc)?;
    is_refused_in(alloc, text, &mut shelf, 2, "usage\n")
}

/// Words that are no command, one such in a line.
const NO_COMMANDS: &str = "\
route\n\
route|d\n\
route|d|r\n\
route|d|r|o|x\n\
checks|d|r|o\n\
ROUTE|d|r|o\n\
rout|d|r|o\n\
|d|r|o\n\
d|route|r|o\n\
--|route|d|r|o\n\
route|--help\n\
route|d|r|o|-h\n\
route|d|r|o|--version\n\
route|d|r|o|--seed\n\
route|d|r|o|--seed|x\n\
route|d|r|o|--seed|-1\n\
route|d|r|o|--seed|18446744073709551616\n\
route|d|r|o|--seed|000000000000000000001\n\
route|d|r|o|--seed|1|--seed|1\n\
route|d|r|o|--style\n\
route|d|r|o|--style|none\n\
route|d|r|o|--style|NEAR\n\
route|d|r|o|--style|\n\
route|d|r|o|--style|near|--style|near\n\
route|d|r|o|--ports|--ports\n\
route|d|r|o|--ports=x\n\
make|1|2|r|o|--ports\n\
route|d|r|o|--labels|--labels\n\
route|d|r|o|--labels=1\n\
make|1|2|r|o|--labels\n\
check|d|r|c|--labels|--labels\n\
route|d|r|o|-q|-q\n\
route|d|r|o|-q|--quiet\n\
route|d|r|o|--quiet=1\n\
route|d|r|o|--progress|--progress\n\
check|d|r|c|--progress\n\
-q|route|d|r|o\n\
help|help\n\
help|router\n\
help|route|check\n\
--help|route\n\
-h|-h\n\
version|route\n\
Help\n\
-v\n\
route|d|r|-x";

#[test]
fn other_words_are_no_command(rt: HostRuntime) -> Result<(), Fail> {
    for text in NO_COMMANDS.split('\n') {
        assert!(rt; is_usage(rt.alloc(), text)?, "{text}");
    }
    assert!(rt; is_usage(rt.alloc(), "")?);
    Ok(())
}

/// Whether these words are a command that writes this file.
fn is_command(alloc: Global, text: &str, out: &str) -> Result<bool, AllocError> {
    let mut shelf = inverter_shelf(alloc)?;
    Ok(is_done(alloc, text, &mut shelf)? && shelf.get(out).is_some())
}

/// Whether these words read a file that is not there.
fn is_lacking(alloc: Global, text: &str) -> Result<bool, AllocError> {
    let mut shelf = MemShelf::new(alloc)?;
    is_ended(alloc, text, &mut shelf, 8, "read fault\n")
}

/// Words that are a command, and the file that it writes.
const COMMANDS: [(&str, &str); 12] = [
    ("route|--|d|r|o", "o"),
    ("route|d|--|r|o", "o"),
    ("route|d|r|--|--help", "--help"),
    ("route|d|r|-", "-"),
    ("route|d|r|", ""),
    ("route|d|r|o|--seed|18446744073709551615", "o"),
    ("route|--seed=0|d|r|o|--style|lean|--rows|1", "o"),
    ("route|d|r|o|--style=high", "o"),
    ("route|-q|d|r|o", "o"),
    ("route|d|r|o|--quiet", "o"),
    ("route|d|--progress|r|o", "o"),
    ("make|1|1|r|o|--progress", "o"),
];

#[test]
fn words_of_a_command(rt: HostRuntime) -> Result<(), Fail> {
    for case in &COMMANDS {
        assert!(rt; is_command(rt.alloc(), case.0, case.1)?, "{}", case.0);
    }
    // An empty word names a file, which is not there.
    assert!(rt; is_lacking(rt.alloc(), "route||r|o")?);
    Ok(())
}

/// In each line words, the file that they write, and where the last of seven cells of one column lies in as many rows as they ask for. Without a number there are
/// two rows, which make the layout about square; the first cell of row k lies at y 800 + 4800 * k.
const ASKED: &str = "\
route|d|r|o : o : 1600 5600\n\
route|d|r|o|--rows|1 : o : 4800 800\n\
route|d|r|o|--rows|2 : o : 1600 5600\n\
route|d|r|o|--rows=3 : o : 0 10400\n\
route|d|r|o|--rows|007 : o : 0 29600\n\
route|d|r|o|--rows|512 : o : 0 29600\n\
route|d|r|o|--rows|00000000000000000001 : o : 4800 800\n\
route|--rows|3|d|r|o : o : 0 10400\n\
route|d|--rows=3|r|o : o : 0 10400\n\
route|d|r|--rows|3|o : o : 0 10400\n\
route|--rows|3|--|d|r|o : o : 0 10400\n\
route|--rows=3|d|r|--|o : o : 0 10400\n\
route|d|r|--|--rows : --rows : 1600 5600\n\
route|d|r|--|--rows=x : --rows=x : 1600 5600\n\
route|d|--rows|3|r|--|--rows : --rows : 0 10400";

/// A shelf with a design of seven cells.
fn seven_shelf(alloc: Global) -> Result<MemShelf, AllocError> {
    let calls =
        "u1 INV n1;\nu2 INV n2;\nu3 INV n3;\nu4 INV n4;\nu5 INV n5;\nu6 INV n6;\nu7 INV n7;\n";
    shelf_of(alloc, RULES, INVERTER, calls)
}

/// Whether the last cell of a file lies here.
fn is_last_at(alloc: Global, shelf: &MemShelf, out: &str, place: &str) -> Result<bool, AllocError> {
    let Some(written) = shelf.get(out) else {
        return Ok(false);
    };
    let end = format!(in alloc; "\nC 1 T {place};\nE\n")?;
    Ok(written.ends_with(end.as_bytes()))
}

/// Whether words write this file over the seven cells, with the last of them here.
fn asks_for(alloc: Global, text: &str, out: &str, place: &str) -> Result<bool, AllocError> {
    let mut shelf = seven_shelf(alloc)?;
    Ok(is_done(alloc, text, &mut shelf)? && is_last_at(alloc, &shelf, out, place)?)
}

/// Whether a line tells what its words ask for.
fn is_asked(alloc: Global, line: &str) -> Result<bool, AllocError> {
    let Some((text, rest)) = line.split_once(" : ") else {
        return Ok(false);
    };
    let Some((out, place)) = rest.split_once(" : ") else {
        return Ok(false);
    };
    asks_for(alloc, text, out, place)
}

#[test]
fn words_that_ask_for_rows(rt: HostRuntime) -> Result<(), Fail> {
    for line in ASKED.split('\n') {
        assert!(rt; is_asked(rt.alloc(), line)?, "{line}");
    }
    Ok(())
}

/// Words behind `route d r o` that make them no command, one such in a line.
const NO_ROWS: &str = "\
--rows|513\n\
--rows|0\n\
--rows|000\n\
--rows\n\
--rows|x\n\
--rows|2x\n\
--rows=\n\
--rows|\n\
--rows|-5\n\
--rows=-5\n\
--rows|+5\n\
--rows| 5\n\
--rows|5 \n\
--rows|٢\n\
--rows|000000000000000000001\n\
--rows|18446744073709551615\n\
--rows|18446744073709551618\n\
--rows|1|--rows|2\n\
--rows|2|--rows|2\n\
--rows=2|--rows=2\n\
--rows|--|2\n\
--rows|--seed|1\n\
--row|2\n\
--ROWS|2\n\
-rows|2\n\
--rows|2|x";

/// Whether these words behind `route d r o` make them no command.
fn is_no_number(alloc: Global, more: &str) -> Result<bool, AllocError> {
    let text = format!(in alloc; "route|d|r|o|{more}")?;
    is_usage(alloc, text.as_str())
}

#[test]
fn words_that_ask_for_no_number_of_rows(rt: HostRuntime) -> Result<(), Fail> {
    for more in NO_ROWS.split('\n') {
        assert!(rt; is_no_number(rt.alloc(), more)?, "{more}");
    }
    Ok(())
}
