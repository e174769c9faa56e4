//! Limits of files, designs and layouts.

use crate::support::{ROUTE, is_done, is_refused, is_refused_in, shelf_of, shelf_with, wide};
use samples::{INVERTER, RULES};
use shelf_io::MemShelf;
use std::alloc::{AllocError, Global};
use std::test::Fail;

// So many blanks.
fn blanks(alloc: Global, count: usize) -> Result<String, AllocError> {
    let mut text = String::new(alloc);
    let line = "                                                               \n";
    for _ in 0..count / 64 {
        text.push_str(line)?;
    }
    for _ in 0..count % 64 {
        text.push_str(" ")?;
    }
    Ok(text)
}

#[test]
fn limits_of_files(rt: HostRuntime) -> Result<(), Fail> {
    let alloc = rt.alloc();
    let above = blanks(alloc, 16_777_217)?;
    assert!(rt; is_refused(alloc, above.as_str(), "", 6, "limit Rules 16777216\n")?);
    assert!(rt; is_refused(alloc, RULES, above.as_str(), 6, "limit Design 16777216\n")?);
    let most = blanks(alloc, 16_777_216)?;
    assert!(rt; is_refused(alloc, RULES, most.as_str(), 5, "design NoParent\n")?);
    Ok(())
}

// A shelf with the design of one cell of this width.
fn shelf_of_wide(alloc: Global, width: u32) -> Result<MemShelf, AllocError> {
    let text = wide(alloc, width)?;
    shelf_with(alloc, RULES, text.as_str())
}

// Whether these words are refused so over the design of one cell of this width.
fn is_too_wide(alloc: Global, text: &str, width: u32, line: &str) -> Result<bool, AllocError> {
    let mut shelf = shelf_of_wide(alloc, width)?;
    is_refused_in(alloc, text, &mut shelf, 6, line)
}

#[test]
fn limits_of_widths(rt: HostRuntime) -> Result<(), Fail> {
    let alloc = rt.alloc();
    let one_row = "route|d|r|o|--rows|1";
    assert!(rt; is_too_wide(alloc, one_row, 10_000_008, "limit Width 1000000800\n")?);
    assert!(rt; is_too_wide(alloc, one_row, 16_000_008, "limit Grid 4000002\n")?);
    let mut shelf = shelf_of_wide(alloc, 10_000_000)?;
    assert!(rt; is_done(alloc, one_row, &mut shelf)?);
    Ok(())
}

#[test]
fn limits_of_grids_and_heights(rt: HostRuntime) -> Result<(), Fail> {
    let alloc = rt.alloc();
    // As many rows as make the layout about square have more columns in all.
    assert!(rt; is_too_wide(alloc, ROUTE, 10_000_008, "limit Grid 627500502\n")?);
    let high =
        "MODULE H;\nTYPE STANDARD;\nDIMENSIONS 0 0 8 0 8 10000000 0 10000000;\nIOLIST;\nENDIOLIST;\nENDMODULE;\n";
    let mut shelf = shelf_of(alloc, RULES, high, "u1 H;\n")?;
    assert!(rt; is_refused_in(alloc, ROUTE, &mut shelf, 6, "limit Height 1000001600\n")?);
    Ok(())
}

// The calls of so many inverters.
fn inverters(alloc: Global, count: u32) -> Result<String, AllocError> {
    let mut calls = String::new(alloc);
    for n in 0..count {
        write!(calls, "u{n} INV;\n")?;
    }
    Ok(calls)
}

#[test]
fn a_limit_of_instances(rt: HostRuntime) -> Result<(), Fail> {
    let calls = inverters(rt.alloc(), 20_001)?;
    let mut shelf = shelf_of(rt.alloc(), RULES, INVERTER, calls.as_str())?;
    assert!(rt; is_refused_in(rt.alloc(), ROUTE, &mut shelf, 6, "limit Instances 20001\n")?);
    Ok(())
}
