//! Large designs, which have to be routed within the time of a test.

use crate::support::{is_done, is_routed, shelf_of};
use samples::{CELLS, INVERTER, RULES};
use shelf_io::MemShelf;
use std::alloc::{AllocError, Global};
use std::test::Fail;

// A cell of four columns with two pins at each edge.
const QUAD: &str =
    "MODULE QUAD;\nTYPE STANDARD;\nDIMENSIONS 0 0 32 0 32 40 0 40;\nIOLIST;\na I 4 0 3 POLY;\nb I 12 0 3 POLY;\nc I 20 40 3 POLY;\nd I 28 40 3 POLY;\nENDIOLIST;\nENDMODULE;\n";

/// The words `route d r o` in one row.
const ONE_ROW: &str = "route|d|r|o|--rows|1";

/// The calls of 20,000 inverters with long names.
fn long_calls(alloc: Global) -> Result<String, AllocError> {
    let mut calls = String::new(alloc);
    for n in 0..20_000u32 {
        write!(
            calls,
            "the_inverter_with_a_long_name_numbered_{n} INV the_signal_word_of_a_net_of_one_pin_that_is_numbered_{n};\n"
        )?;
    }
    Ok(calls)
}

/// Whether the layout ends so.
fn is_end(shelf: &MemShelf, end: &[u8]) -> bool {
    match shelf.get("o") {
        Some(written) => written.ends_with(end),
        None => false,
    }
}

#[test]
fn a_large_design_is_routed_in_seconds(rt: HostRuntime) -> Result<(), Fail> {
    let calls = long_calls(rt.alloc())?;
    assert!(rt; calls.len() > 2_000_000);
    let mut shelf = shelf_of(rt.alloc(), RULES, INVERTER, calls.as_str())?;
    assert!(rt; is_routed(rt.alloc(), &mut shelf)?);
    // 64 rows of 313 cells, the last of 281, each row 40 units high on a channel of 8.
    assert!(rt; is_end(&shelf, b"C 1 T 224000 303200;\nE\n"));
    Ok(())
}

/// Whether the layout has so many vias.
fn has_vias(shelf: &MemShelf, vias: usize) -> bool {
    let Some(written) = shelf.get("o") else {
        return false;
    };
    match str::from_utf8(written) {
        Ok(text) => text.matches("\nL NC;\n").count() == vias,
        Err(_) => false,
    }
}

/// Whether the layout has so many cells.
fn has_cells(shelf: &MemShelf, cells: usize) -> bool {
    let Some(written) = shelf.get("o") else {
        return false;
    };
    match str::from_utf8(written) {
        Ok(text) => text.matches("\n91 u").count() == cells,
        Err(_) => false,
    }
}

/// Whether these words route the design of these modules and calls with so many vias.
fn is_wired(
    alloc: Global,
    words: &str,
    modules: &str,
    calls: &str,
    vias: usize,
) -> Result<bool, AllocError> {
    let mut shelf = shelf_of(alloc, RULES, modules, calls)?;
    Ok(is_done(alloc, words, &mut shelf)? && has_vias(&shelf, vias))
}

/// The calls of 200 cells, of which each two share a net.
fn pairs(alloc: Global) -> Result<String, AllocError> {
    let mut calls = String::new(alloc);
    for n in 0..200u32 {
        let net = n / 2;
        write!(calls, "u{n} BUF n{net};\n")?;
    }
    Ok(calls)
}

#[test]
fn pairs_of_cells_are_wired_in_a_second(rt: HostRuntime) -> Result<(), Fail> {
    let calls = pairs(rt.alloc())?;
    // Two vias for each net.
    assert!(rt; is_wired(rt.alloc(), ONE_ROW, CELLS, calls.as_str(), 200)?);
    Ok(())
}

/// The calls of 2,000 cells with 900 nets, whose pins are far from each other.
fn strewn(alloc: Global) -> Result<String, AllocError> {
    let mut calls = String::new(alloc);
    for n in 0..2_000u32 {
        let kind = if n % 2 == 0 { "BUF" } else { "INV" };
        let net = n * 7 % 900;
        write!(calls, "u{n} {kind} n{net};\n")?;
    }
    Ok(calls)
}

#[test]
fn nets_across_rows_are_wired_in_seconds(rt: HostRuntime) -> Result<(), Fail> {
    let calls = strewn(rt.alloc())?;
    let mut shelf = shelf_of(rt.alloc(), RULES, CELLS, calls.as_str())?;
    assert!(rt; is_routed(rt.alloc(), &mut shelf)?);
    Ok(())
}

/// The calls of 20,000 cells, of which each two share four nets.
fn quads(alloc: Global) -> Result<String, AllocError> {
    let mut calls = String::new(alloc);
    for n in 0..20_000u32 {
        let pair = n / 2;
        write!(calls, "u{n} QUAD a{pair} b{pair} c{pair} d{pair};\n")?;
    }
    Ok(calls)
}

#[test]
fn a_large_design_of_pairs_is_wired_in_seconds(rt: HostRuntime) -> Result<(), Fail> {
    let calls = quads(rt.alloc())?;
    let mut shelf = shelf_of(rt.alloc(), RULES, QUAD, calls.as_str())?;
    assert!(rt; is_routed(rt.alloc(), &mut shelf)?);
    assert!(rt; has_cells(&shelf, 20_000));
    Ok(())
}

/// A cell of 200,000 terminals.
fn bus(alloc: Global) -> Result<String, AllocError> {
    let mut text = String::from_str(
        alloc,
        "MODULE BUS;\nTYPE STANDARD;\nDIMENSIONS 0 0 1600000 0 1600000 40 0 40;\nIOLIST;\n",
    )?;
    for n in 0..200_000u32 {
        let x = 8 * n + 4;
        write!(text, "t{n} I {x} 40 3 POLY;\n")?;
    }
    text.push_str("ENDIOLIST;\nENDMODULE;\n")?;
    Ok(text)
}

/// The call of that cell, where each two terminals share a net.
fn bus_call(alloc: Global) -> Result<String, AllocError> {
    let mut call = String::from_str(alloc, "u BUS")?;
    for n in 0..200_000u32 {
        let net = n / 2;
        write!(call, " n{net}")?;
    }
    call.push_str(";\n")?;
    Ok(call)
}

#[test]
fn a_cell_of_many_terminals_is_wired_in_seconds(rt: HostRuntime) -> Result<(), Fail> {
    let cell = bus(rt.alloc())?;
    let call = bus_call(rt.alloc())?;
    // 100,000 nets of two pins, each with two vias.
    assert!(rt; is_wired(rt.alloc(), ONE_ROW, cell.as_str(), call.as_str(), 200_000)?);
    Ok(())
}
