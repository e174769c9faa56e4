//! Designs whose numbers have decimals.

use crate::support::{ONE_INVERTER, ROUTE, ended, is_refused, is_routed, rules_with, shelf_with};
use samples::{RULES, design_text};
use shelf_io::MemSink;
use std::alloc::{AllocError, Global};
use std::test::Fail;

/// The sample rules in version 2, with so many decimals.
fn rules_of(alloc: Global, decimals: u32) -> Result<String, AllocError> {
    let front = format!(in alloc; "version = 2\ndecimals = {decimals}\n")?;
    rules_with(alloc, "version = 1\n", front.as_str())
}

/// The design of one inverter with two decimals, whose pin stands at this number.
fn inverter_at(alloc: Global, x: &str) -> Result<String, AllocError> {
    let module = format!(in alloc;
        "MODULE INV;\nTYPE STANDARD;\nDIMENSIONS 0 0 0.08 0 0.08 0.40 0 0.4;\nIOLIST;\na I {x} 0 3 POLY;\nENDIOLIST;\nENDMODULE;\n"
    )?;
    design_text(alloc, module.as_str(), "u1 INV n1;\n")
}

/// Whether the inverter with its pin at this number gives the layout of one in units.
fn is_inverter(alloc: Global, x: &str) -> Result<bool, AllocError> {
    let rules = rules_of(alloc, 2)?;
    let design = inverter_at(alloc, x)?;
    let mut shelf = shelf_with(alloc, rules.as_str(), design.as_str())?;
    Ok(is_routed(alloc, &mut shelf)? && shelf.get("o") == Some(ONE_INVERTER.as_bytes()))
}

#[test]
fn a_design_with_two_decimals(rt: HostRuntime) -> Result<(), Fail> {
    assert!(rt; ONE_INVERTER.len() == 110);
    assert!(rt; is_inverter(rt.alloc(), "0.04")?);
    assert!(rt; is_inverter(rt.alloc(), "0.0400")?);
    Ok(())
}

/// Numbers that are no whole number of units, or have decimals where there are none: the decimals of the rules, the pin's number, and the line.
const REFUSED: [(u32, &str, &str); 4] = [
    (2, "0.041", "yal Number 78\n"),
    (2, ".04", "yal Number 78\n"),
    (1, "0.04", "yal Number 42\n"),
    (0, "0.04", "yal Number 42\n"),
];

#[test]
fn numbers_that_are_no_units(rt: HostRuntime) -> Result<(), Fail> {
    for (decimals, x, line) in REFUSED {
        let rules = rules_of(rt.alloc(), decimals)?;
        let design = inverter_at(rt.alloc(), x)?;
        assert!(rt;
            is_refused(rt.alloc(), rules.as_str(), design.as_str(), 3, line)?,
            "{decimals} {x}"
        );
    }
    let design = inverter_at(rt.alloc(), "0.04")?;
    assert!(rt; is_refused(rt.alloc(), RULES, design.as_str(), 3, "yal Number 42\n")?);
    Ok(())
}

/// What these words write into `o` and print under these rules, with this design under `d`.
fn written(
    alloc: Global,
    words: &str,
    rules: &str,
    design: &str,
) -> Result<(Vec<u8>, Vec<u8>), AllocError> {
    let mut shelf = shelf_with(alloc, rules, design)?;
    let mut out = MemSink::new(alloc)?;
    let _ended = ended(alloc, words, &mut shelf, &mut out)?;
    let text = match shelf.get("o") {
        Some(bytes) => bytes.to_vec(alloc)?,
        None => Vec::new(alloc),
    };
    Ok((text, out.bytes().to_vec(alloc)?))
}

#[test]
fn a_made_design_with_decimals_is_the_same(rt: HostRuntime) -> Result<(), Fail> {
    let alloc = rt.alloc();
    let (text, lines) = written(alloc, "make|1|500|r|o", RULES, "")?;
    assert!(rt;
        lines
            .as_slice()
            .starts_with("cells 500\nnets 625\nrows 39\n".as_bytes())
    );
    for decimals in 1..3u32 {
        let rules = rules_of(alloc, decimals)?;
        let (found, told) = written(alloc, "make|1|500|r|o", rules.as_str(), "")?;
        assert!(rt; found.as_slice() == text.as_slice(), "{decimals}");
        assert!(rt; told.as_slice() == lines.as_slice(), "{decimals}");
    }
    Ok(())
}
