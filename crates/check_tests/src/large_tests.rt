//! 20,000 buffers in rows of 1,000.

use crate::texts::{SYMBOL, findings_of};
use layout_check::Finding;
use samples::BUFFER;
use std::alloc::{AllocError, Global};
use std::test::Fail;

// The calls of the cells, all of one net or each of its own, and their copies.
fn put_cells(
    alloc: Global,
    calls: &mut String,
    copies: &mut String,
    one_net: bool,
) -> Result<(), AllocError> {
    for n in 0..20_000u32 {
        let net = if one_net { 0 } else { n };
        let (x, y) = (n % 1000 * 800, n / 1000 * 8000);
        calls.push_str(format!(in alloc; "c{n} BUF n{net};\n")?.as_str())?;
        copies.push_str(format!(in alloc; "91 c{n};\nC 1 T {x} {y};\n")?.as_str())?;
    }
    Ok(())
}

fn many(alloc: Global, one_net: bool) -> Result<Option<Vec<Finding>>, AllocError> {
    let mut calls = String::new(alloc);
    let mut text = String::new(alloc);
    text.push_str(SYMBOL)?;
    put_cells(alloc, &mut calls, &mut text, one_net)?;
    text.push_str("E\n")?;
    findings_of(alloc, BUFFER, calls.as_str(), text.as_bytes())
}

// One call, and many cells of its name.
fn doubled(alloc: Global) -> Result<Option<Vec<Finding>>, AllocError> {
    let mut text = String::new(alloc);
    text.push_str(SYMBOL)?;
    for n in 0..20_000u32 {
        let (x, y) = (n % 1000 * 800, n / 1000 * 8000);
        text.push_str(format!(in alloc; "91 c;\nC 1 T {x} {y};\n")?.as_str())?;
    }
    text.push_str("E\n")?;
    findings_of(alloc, BUFFER, "c BUF n;", text.as_bytes())
}

#[test]
fn nothing_is_wrong_with_many(rt: HostRuntime) -> Result<(), Fail> {
    let Some(findings) = many(rt.alloc(), false)? else {
        assert!(rt; false);
        return Ok(());
    };
    assert!(rt; findings.is_empty());
    Ok(())
}

#[test]
fn a_large_net_is_open(rt: HostRuntime) -> Result<(), Fail> {
    let Some(findings) = many(rt.alloc(), true)? else {
        assert!(rt; false);
        return Ok(());
    };
    assert_eq!(rt; findings.len(), 19_999);
    let mut later: u32 = 1;
    for finding in findings.as_slice() {
        assert!(rt; *finding == Finding::Opened(0, later));
        later = later.wrapping_add(1);
    }
    Ok(())
}

#[test]
fn many_cells_of_a_name(rt: HostRuntime) -> Result<(), Fail> {
    let Some(findings) = doubled(rt.alloc())? else {
        assert!(rt; false);
        return Ok(());
    };
    assert_eq!(rt; findings.len(), 19_999);
    let mut later: u32 = 1;
    for finding in findings.as_slice() {
        assert!(rt; *finding == Finding::Doubled(0, later));
        later = later.wrapping_add(1);
    }
    Ok(())
}
