//! Files of netlists and of cells that are not read, or no such, or past a limit, and the notes on them.

use crate::support::{first_line, import_notes};
use command_ends::{Limited, Refusal, Stop};
use std::alloc::{AllocError, Global};
use std::test::Fail;
use yal_reader::{Numbers, YalFault, read_yal};

/// The netlist where its text does not matter.
const NETLIST: &[u8] = b".model m\n.end\n";

/// The cells, up to how many decimals their numbers have, and the note.
const MISTAKES: &[(&[u8], u32, &str)] = &[
    (
        b"MODULE INV; TYPE STANDARD;\nDIMENSIONS 0 0 1.5 0;\nENDMODULE;\n",
        0,
        "c.yal:2:16: 1.5 has more decimals than --decimals 0; up to 4 may be asked for [yal Number 42]",
    ),
    (
        b"MODULE INV; TYPE STANDARD;\nDIMENSIONS 0 0 0.25 0;\nENDMODULE;\n",
        1,
        "c.yal:2:16: 0.25 has more decimals than --decimals 1; up to 4 may be asked for [yal Number 42]",
    ),
    (
        b"MODULE INV; TYPE STANDARD;\nDIMENSIONS 0 0 100000000.5 0;\nENDMODULE;\n",
        1,
        "c.yal:2:16: 100000000.5 is too far; numbers are from -100000000 to 100000000 units [yal Number 42]",
    ),
    (
        b"# cells\n.model m\n.end\n",
        0,
        "c.yal:1:1: MODULE is wanted here, not #; this looks like a netlist in BLIF: the words are import BLIF CELLS OUT [yal Word 0]",
    ),
    (
        b"# cells\n",
        0,
        "c.yal:1:1: MODULE is wanted here, not #; comments stand between /* and */ [yal Word 0]",
    ),
    (
        b"library (cells) {\n}\n",
        0,
        "c.yal:1:1: MODULE is wanted here, not library; this looks like cells in Liberty, and modules in YAL are wanted [yal Word 0]",
    ),
];

// The notes on cells that are no YAL.
fn notes_on(alloc: Global, cells: &[u8], decimals: u32) -> Result<String, AllocError> {
    match read_yal(alloc, cells, Numbers::Decimal(decimals)) {
        Ok(_) => String::from_str(alloc, "cells"),
        Err(YalFault::Memory) => Err(AllocError),
        Err(YalFault::Bad { kind, at }) => {
            let stop = Stop::Refused(Refusal::Yal(kind, at));
            import_notes(alloc, decimals, Some(NETLIST), Some(cells), &stop)
        }
    }
}

#[test]
fn mistakes_in_cells_have_notes(rt: HostRuntime) -> Result<(), Fail> {
    for (cells, decimals, note) in MISTAKES {
        let notes = notes_on(rt.alloc(), *cells, *decimals)?;
        assert_eq!(rt; first_line(notes.as_str()), *note);
    }
    Ok(())
}

#[test]
fn files_that_are_too_long_have_notes(rt: HostRuntime) -> Result<(), Fail> {
    let stop = Stop::Refused(Refusal::Limit(Limited::Blif, 16_777_216));
    let notes = import_notes(rt.alloc(), 0, None, None, &stop)?;
    assert_eq!(rt;
        notes.as_str(),
        "m.blif: the file has more than 16777216 bytes, the most that it may have [limit Blif 16777216]\n"
    );
    let stop = Stop::Refused(Refusal::Limit(Limited::Cells, 16_777_216));
    let notes = import_notes(rt.alloc(), 0, Some(NETLIST), None, &stop)?;
    assert_eq!(rt;
        notes.as_str(),
        "c.yal: the file has more than 16777216 bytes, the most that it may have [limit Cells 16777216]\n"
    );
    Ok(())
}

#[test]
fn files_that_are_not_read_or_written_have_notes(rt: HostRuntime) -> Result<(), Fail> {
    let notes = import_notes(rt.alloc(), 0, None, None, &Stop::ReadFault)?;
    assert_eq!(rt;
        notes.as_str(),
        "m.blif: no such file, or not readable [read fault]\n"
    );
    let notes = import_notes(rt.alloc(), 0, Some(NETLIST), None, &Stop::ReadFault)?;
    assert_eq!(rt;
        notes.as_str(),
        "c.yal: no such file, or not readable [read fault]\n"
    );
    let notes = import_notes(rt.alloc(), 0, Some(NETLIST), Some(b""), &Stop::WriteFault)?;
    assert_eq!(rt;
        notes.as_str(),
        "o.yal: not writable, or the disk is full [write fault]\n"
    );
    Ok(())
}
