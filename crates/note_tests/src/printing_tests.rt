//! What could not be printed whole, and the notes on it.

use crate::support::{CHECK, GATES, ROUTE, noted_over, shelf_with};
use samples::RULES;
use shelf_io::{MemShelf, MemSink};
use std::test::Fail;

/// Words, and how the notes end where the sink for lines fails at once.
const CASES: [(&str, &str); 4] = [
    (
        ROUTE,
        "\nthe standard output could not be written; o.cif is whole [write fault]\n",
    ),
    (
        CHECK,
        "\nthe standard output could not be written [write fault]\n",
    ),
    (
        "check|my.yal|rules.toml|o.cif|--markers|m.lyrdb",
        "\nthe standard output could not be written; m.lyrdb is whole [write fault]\n",
    ),
    (
        "help",
        "the standard output could not be written [write fault]\n",
    ),
];

#[test]
fn what_could_not_be_printed_has_a_note(rt: HostRuntime) -> Result<(), Fail> {
    for (words, end) in CASES {
        let mut shelf = shelf_with(rt.alloc(), RULES, GATES)?;
        shelf.set("o.cif", b"(cellroute 1);\nE\n")?;
        let mut out = MemSink::new(rt.alloc())?;
        out.fail_at(0)?;
        let notes = noted_over(rt.alloc(), words, &mut shelf, &mut out)?;
        assert!(rt; notes.as_str().ends_with(end), "{notes}");
        let mut out = MemSink::new(rt.alloc())?;
        let notes = noted_over(rt.alloc(), words, &mut shelf, &mut out)?;
        assert!(rt; !notes.as_str().ends_with(end), "{notes}");
    }
    Ok(())
}
