//! 20,000 cells, each with an outline and 50 positions of five terminals.

use crate::texts::extract_of;
use geom_extract::Extract;
use std::alloc::{AllocError, Global};
use std::test::Fail;

/// A module of 25 columns: in column c the terminal of number c modulo 5 has a position below and one above.
fn put_module(alloc: Global, text: &mut String) -> Result<(), AllocError> {
    text.push_str("MODULE WIDE;\nTYPE STANDARD;\nDIMENSIONS 0 0 200 0 200 40 0 40;\nIOLIST;\n")?;
    for c in 0..25u32 {
        let terminal = c % 5;
        let x = 8 * c + 4;
        text.push_str(format!(in alloc;
            "t{terminal} B {x} 0 3 POLY;\nt{terminal} B {x} 40 3 POLY;\n"
        )?.as_str())?;
    }
    text.push_str("ENDIOLIST;\nENDMODULE;\n")
}

/// The symbol of that module.
fn put_symbol(alloc: Global, text: &mut String) -> Result<(), AllocError> {
    text.push_str("DS 1 1 1;\n9 WIDE;\nL XP;\nB 20000 4000 10000 2000;\nL NP;\n")?;
    for c in 0..25u32 {
        let x = 800 * c + 400;
        text.push_str(format!(in alloc; "B 300 400 {x} 200;\nB 300 400 {x} 3800;\n")?.as_str())?;
    }
    text.push_str("DF;\n")
}

/// The calls of the cells, and their copies in rows of 1,000.
fn put_cells(alloc: Global, calls: &mut String, copies: &mut String) -> Result<(), AllocError> {
    for n in 0..20_000u32 {
        let (x, y) = (n % 1000 * 20_000, n / 1000 * 8000);
        calls.push_str(format!(in alloc; "c{n} WIDE a b c d e;\n")?.as_str())?;
        copies.push_str(format!(in alloc; "91 c{n};\nC 1 T {x} {y};\n")?.as_str())?;
    }
    Ok(())
}

fn chip(alloc: Global) -> Result<Option<Extract>, AllocError> {
    let mut modules = String::new(alloc);
    put_module(alloc, &mut modules)?;
    let mut calls = String::new(alloc);
    let mut text = String::new(alloc);
    put_symbol(alloc, &mut text)?;
    put_cells(alloc, &mut calls, &mut text)?;
    text.push_str("E\n")?;
    extract_of(alloc, modules.as_str(), calls.as_str(), text.as_bytes())
}

/// Whether the shape behind the outline of each cell at each place has the number of its terminal's pin.
fn have_pins_numbers(extract: &Extract) -> bool {
    for n in 0..20_000usize {
        for place in 0..50usize {
            let shape = extract.shapes.get(51 * n + 1 + place);
            if shape.is_none() || shape != extract.pins.get(5 * n + place / 2 % 5) {
                return false;
            }
        }
    }
    true
}

#[test]
fn terminals_of_many_cells(rt: HostRuntime) -> Result<(), Fail> {
    let Some(extract) = chip(rt.alloc())? else {
        assert!(rt; false);
        return Ok(());
    };
    assert_eq!(rt; extract.shapes.len(), 1_020_000);
    assert_eq!(rt; extract.pins.len(), 100_000);
    assert!(rt; have_pins_numbers(&extract));
    let mut numbers = extract.pins;
    numbers.sort()?;
    for pair in numbers.as_slice().windows(2) {
        assert!(rt; pair.first() != pair.last());
    }
    Ok(())
}
