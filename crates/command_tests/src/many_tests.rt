//! Layouts with many findings or none, of files as large as they may be, and names of any bytes.

ghost use Rattle.std.specs.Prelude.{◌≤◌};

use crate::support::{
    CHECK, TWO_JOINED, begins_so, ended, is_done, is_ended, rules_with, shelf_of, shelf_with_bytes,
    text_with,
};
use layout_report::make_design;
use samples::{BUFFER, CELLS, RULES, sample_rules};
use shelf_io::{MemShelf, MemSink};
use std::alloc::{AllocError, Global};
use std::test::Fail;

/// So many outlines in one place.
fn outlines(alloc: Global, count: u32) -> Result<String, AllocError> {
    let mut text = String::from_str(alloc, "L XP;\n")?;
    for _ in 0..count {
        text.push_str("B 800 4000 400 2000;\n")?;
    }
    text.push_str("E\n")?;
    Ok(text)
}

/// Whether a check of this layout for a design without cells ends with 1, and prints this first and this last.
fn is_found(alloc: Global, text: &str, first: &str, last: &str) -> Result<bool, AllocError> {
    let mut shelf = shelf_of(alloc, RULES, "", "")?;
    shelf.set("c", text.as_bytes())?;
    let mut out = MemSink::new(alloc)?;
    let status = ended(alloc, CHECK, &mut shelf, &mut out)?.status;
    let bytes = out.bytes();
    Ok(status == 1 && bytes.starts_with(first.as_bytes()) && bytes.ends_with(last.as_bytes()))
}

/// 45 outlines have 990 pairs, and 46 have 1,035, of which 1,000 are told.
#[test]
fn more_pairs_than_are_told(rt: HostRuntime) -> Result<(), Fail> {
    let alloc = rt.alloc();
    let few = outlines(alloc, 45)?;
    assert!(rt;
        is_found(
            alloc,
            few.as_str(),
            "Overlap 0 1\n",
            "Overlap 43 44\nfindings 990\n"
        )?
    );
    let many = outlines(alloc, 46)?;
    assert!(rt; is_found(alloc, many.as_str(), "Overlap 0 1\n", "\nfindings 1000\n")?);
    Ok(())
}

/// A name with a line feed inside is told as it stands.
#[test]
fn a_name_of_two_lines(rt: HostRuntime) -> Result<(), Fail> {
    let alloc = rt.alloc();
    let text = text_with(alloc, TWO_JOINED, "91 u1;\n", "91 u1\nx;\n")?;
    let mut shelf = shelf_of(alloc, RULES, BUFFER, "u1 BUF n1;\nu2 BUF n1;\n")?;
    shelf.set("c", text.as_bytes())?;
    assert!(rt;
        is_ended(
            alloc,
            CHECK,
            &mut shelf,
            1,
            "Missing u1\nStrange u1\nx\nfindings 2\n"
        )?
    );
    Ok(())
}

/// Whether the layout of these cells, routed with these words into `c`, is found good.
fn is_clean(alloc: Global, words: &str, calls: &str) -> Result<bool, AllocError> {
    let mut shelf = shelf_of(alloc, RULES, CELLS, calls)?;
    let routed = is_done(alloc, words, &mut shelf)?;
    Ok(routed && is_ended(alloc, CHECK, &mut shelf, 0, "findings 0\n")?)
}

/// Words that route, and the calls of cells that they route.
const CLEAN: [(&str, &str); 6] = [
    ("route|d|r|c", ""),
    ("route|d|r|c", "u1 INV n1;\n"),
    ("route|d|r|c", "u1 BUF n1;\nu2 BUF n1;\n"),
    ("route|d|r|c|--rows|2", "u1 BUF n;\nu2 INV n;\n"),
    (
        "route|d|r|c|--rows|4",
        "u1 BUF n;\nu2 INV p;\nu3 INV q;\nu4 INV n;\n",
    ),
    (
        "route|d|r|c|--rows|4",
        "u1 BUF n;\nu2 THR n;\nu3 INV q;\nu4 INV n;\n",
    ),
];

#[test]
fn layouts_that_are_routed_are_clean(rt: HostRuntime) -> Result<(), Fail> {
    for case in &CLEAN {
        assert!(rt; is_clean(rt.alloc(), case.0, case.1)?, "{}", case.1);
    }
    Ok(())
}

/// A shelf with these rules and a made design of so many instances.
fn made_shelf(alloc: Global, rules: &str, seed: u64, instances: u32) -> Result<MemShelf, AllocError>
    requires some { 1 ≤ instances }
    requires few { instances ≤ 20000 }
{
    let sample = sample_rules(alloc)?;
    let design = make_design(alloc, &sample, seed, instances)?;
    shelf_with_bytes(alloc, rules, design.as_slice())
}

/// The layout of a made design is good for the text that it is made of.
#[test]
fn a_made_layout_is_clean(rt: HostRuntime) -> Result<(), Fail> {
    let mut shelf = made_shelf(rt.alloc(), RULES, 1, 500)?;
    assert!(rt; is_done(rt.alloc(), "make|1|500|r|c", &mut shelf)?);
    assert!(rt; is_ended(rt.alloc(), CHECK, &mut shelf, 0, "findings 0\n")?);
    Ok(())
}

/// A file of more bytes than a layout may have.
#[test]
fn a_layout_of_too_many_bytes(rt: HostRuntime) -> Result<(), Fail> {
    let alloc = rt.alloc();
    let mut shelf = shelf_of(alloc, RULES, "", "")?;
    let blanks = vec![in alloc; b' '; 268_435_457]?;
    shelf.set("c", blanks.as_slice())?;
    assert!(rt; is_ended(alloc, CHECK, &mut shelf, 6, "limit Cif 268435456\n")?);
    Ok(())
}

/// A made design, routed twice with one seed: it is clean, and the texts are the same.
#[test]
fn a_made_design_in_three_rows(rt: HostRuntime) -> Result<(), Fail> {
    let rules = rules_with(rt.alloc(), "stages = 0", "stages = 20")?;
    let mut shelf = made_shelf(rt.alloc(), rules.as_str(), 7, 60)?;
    let front = "cells 60\nnets 75\nrows 3\n";
    assert!(rt;
        begins_so(
            rt.alloc(),
            "route|d|r|c|--rows|3|--seed|7",
            &mut shelf,
            front
        )?
    );
    assert!(rt; is_ended(rt.alloc(), CHECK, &mut shelf, 0, "findings 0\n")?);
    assert!(rt; is_done(rt.alloc(), "route|d|r|o|--rows|3|--seed|7", &mut shelf)?);
    assert!(rt; shelf.get("o") == shelf.get("c"));
    Ok(())
}
