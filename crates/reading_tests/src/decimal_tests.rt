//! Decimals in texts of YAL.

use crate::shown_files::shown;
use std::alloc::{AllocError, Global};
use std::test::Fail;
use yal_reader::{Numbers, YalFault, YalFile, YalKind, read_yal};

/// Words with so many decimals, and the units that each is, or None where it is no number.
const DECIMALS: [(u32, &str, Option<i64>); 42] = [
    (0, "5", Some(5)),
    (0, "5.", None),
    (0, "5.0", Some(5)),
    (0, "5.000000000000", Some(5)),
    (0, "5.1", None),
    (0, "-0.0", Some(0)),
    (0, ".5", None),
    (0, "1.2.3", None),
    (0, "100000000.0", Some(100_000_000)),
    (0, "100000001.0", None),
    (2, "5", Some(500)),
    (2, "5.", None),
    (2, "5.0", Some(500)),
    (2, "5.1", Some(510)),
    (2, "5.12", Some(512)),
    (2, "5.120", Some(512)),
    (2, "5.1200000000000", Some(512)),
    (2, "5.125", None),
    (2, "5.1250", None),
    (2, "5.001", None),
    (2, "-0.0", Some(0)),
    (2, "-0.04", Some(-4)),
    (2, "007.07", Some(707)),
    (2, ".5", None),
    (2, "-.5", None),
    (2, ".", None),
    (2, "-", None),
    (2, "-.", None),
    (2, "+0.5", None),
    (2, "1,5", None),
    (2, "1.2.3", None),
    (2, "1..2", None),
    (2, "1.x", None),
    (2, "1.00x", None),
    (2, "1000000", Some(100_000_000)),
    (2, "1000000.01", None),
    (4, "1.2.3", None),
    (4, "-10000.0000", Some(-100_000_000)),
    (4, "10000", Some(100_000_000)),
    (4, "10000.0001", None),
    (4, "9999.99990", Some(99_999_999)),
    (4_000_000_000, "0.0", Some(0)),
];

/// The first number behind the first DIMENSIONS of a file.
fn first_corner(file: &YalFile) -> Option<i64> {
    let module = file.modules.items().first()?;
    module.corners.items().first().copied()
}

/// The units that a word of DIMENSIONS is with so many decimals, or None where the fault Number stands at it.
fn units_of(alloc: Global, decimals: u32, word: &str) -> Result<Option<i64>, AllocError> {
    let text = format!(in alloc; "MODULE a;TYPE STANDARD;DIMENSIONS {word};ENDMODULE;")?;
    match read_yal(alloc, text.as_bytes(), Numbers::Decimal(decimals)) {
        Ok(file) => Ok(first_corner(&file)),
        Err(
            YalFault::Bad {
                kind: YalKind::Number,
                at: 34,
            },
        ) => Ok(None),
        Err(_) => Err(AllocError),
    }
}

#[test]
fn decimals_are_units(rt: HostRuntime) -> Result<(), Fail> {
    for (decimals, word, want) in DECIMALS {
        let found = units_of(rt.alloc(), decimals, word)?;
        assert!(rt; found == want, "{decimals} {word}");
    }
    Ok(())
}

/// A spot's numbers are read as those of DIMENSIONS, and its width may be any word.
#[test]
fn spots_have_decimals(rt: HostRuntime) -> Result<(), Fail> {
    let alloc = rt.alloc();
    let text = "MODULE a;TYPE STANDARD;IOLIST;b I 0.04 -1.5 0.0123 c;ENDIOLIST;ENDMODULE;";
    let file = read_yal(alloc, text.as_bytes(), Numbers::Decimal(2))?;
    assert!(rt; shown(alloc, &file)?.as_slice() == b"a Standard / b I 4 -150 c , / / ".as_slice());
    Ok(())
}
