//! Files that are misspelt, exchanged or past a limit, and the notes on them.

use crate::support::{CHECK, GATES, ROUTE, changed, first_line, noted, shelf_with};
use samples::{RULES, design_text};
use std::test::Fail;

/// The words, and the note.
const MISTAKES: &[(&str, &str)] = &[
    (
        "route|my.yal|everday.toml|o.cif",
        "everday.toml: no such file, or not readable [read fault]",
    ),
    (
        "route|mine.yal|rules.toml|o.cif",
        "mine.yal: no such file, or not readable [read fault]",
    ),
    (
        "check|my.yal|rules.toml|out.cif",
        "out.cif: no such file, or not readable [read fault]",
    ),
    (
        "route|rules.toml|my.yal|o.cif",
        "my.yal: this looks like a design, and rules are wanted; the words are route DESIGN RULES OUT, and check DESIGN RULES CIF [rules Toml]",
    ),
    (
        "check|o.cif|rules.toml|my.yal",
        "o.cif:1:1: MODULE is wanted here, not (cellroute; this looks like a layout in CIF: the words are route DESIGN RULES OUT, and check DESIGN RULES CIF [yal Word 0]",
    ),
    (
        "check|my.yal|rules.toml|my.yal",
        "my.yal:1:1: this looks like a design, and a layout in CIF is wanted; the words are check DESIGN RULES CIF [cif BadCommand 0]",
    ),
];

#[test]
fn files_that_are_misspelt_or_exchanged_have_notes(rt: HostRuntime) -> Result<(), Fail> {
    for (words, note) in MISTAKES {
        let mut shelf = shelf_with(rt.alloc(), RULES, GATES)?;
        shelf.set("o.cif", b"(cellroute 1);\nE\n")?;
        let notes = noted(rt.alloc(), *words, &mut shelf)?;
        assert_eq!(rt; first_line(notes.as_str()), *note);
    }
    Ok(())
}

#[test]
fn an_empty_design_has_a_note(rt: HostRuntime) -> Result<(), Fail> {
    let mut shelf = shelf_with(rt.alloc(), RULES, "")?;
    let notes = noted(rt.alloc(), CHECK, &mut shelf)?;
    assert_eq!(rt;
        notes.as_str(),
        "my.yal: the file has no module; one of TYPE PARENT is wanted, whose NETWORK calls the cells [design NoParent]\n"
    );
    Ok(())
}

#[test]
fn a_file_that_is_not_written_has_a_note(rt: HostRuntime) -> Result<(), Fail> {
    let mut told = false;
    for call in 0..12u64 {
        let mut shelf = shelf_with(rt.alloc(), RULES, GATES)?;
        shelf.fail_at(call)?;
        let notes = noted(rt.alloc(), ROUTE, &mut shelf)?;
        told |= notes.as_str() == "o.cif: not writable, or the disk is full [write fault]\n";
    }
    assert!(rt; told);
    Ok(())
}

#[test]
fn too_many_changes_have_a_note(rt: HostRuntime) -> Result<(), Fail> {
    let rules = changed(
        rt.alloc(),
        RULES,
        "stages = 0\nmoves = 4 => stages = 1000\nmoves = 1000",
    )?;
    let mut shelf = shelf_with(rt.alloc(), rules.as_str(), "")?;
    let notes = noted(rt.alloc(), "make|1|51|rules.toml|o.cif", &mut shelf)?;
    assert_eq!(rt;
        first_line(notes.as_str()),
        "rules.toml:26: annealing would try 51000000 changes (anneal.stages 1000 * anneal.moves 1000 * 51 instances); 50000000 at most may be, as with anneal.moves 980 [limit Moves 51000000]"
    );
    let notes = noted(
        rt.alloc(),
        "make|1|17|rules.toml|o.cif|--tries|3",
        &mut shelf,
    )?;
    assert_eq!(rt;
        first_line(notes.as_str()),
        "rules.toml:26: annealing would try 51000000 changes (anneal.stages 1000 * anneal.moves 1000 * 17 instances * 3 tries); 50000000 at most may be, as with anneal.moves 980 [limit Moves 51000000]"
    );
    Ok(())
}

#[test]
fn large_layouts_have_notes(rt: HostRuntime) -> Result<(), Fail> {
    let module =
        "MODULE W;\nTYPE STANDARD;\nDIMENSIONS 0 0 10000008 0 10000008 40 0 40;\nIOLIST;\na I 4 0 3 POLY;\nENDIOLIST;\nENDMODULE;\n";
    let design = design_text(rt.alloc(), module, "u1 W n1;\n")?;
    let mut shelf = shelf_with(rt.alloc(), RULES, design.as_str())?;
    let wide = noted(
        rt.alloc(),
        "route|my.yal|rules.toml|o.cif|--rows|1",
        &mut shelf,
    )?;
    assert_eq!(rt;
        wide.as_str(),
        "my.yal: the layout would be 1000000800 centimicrons wide; 1000000000 at most may be: more rows (--rows K), or a smaller grid.centi, which is 100 [limit Width 1000000800]\n"
    );
    let many = noted(rt.alloc(), ROUTE, &mut shelf)?;
    assert_eq!(rt;
        many.as_str(),
        "my.yal: all channels together have 627500502 columns; 4000000 at most may be: fewer rows than are chosen by themselves (--rows K) have less [limit Grid 627500502]\n"
    );
    let module =
        "MODULE H;\nTYPE STANDARD;\nDIMENSIONS 0 0 8 0 8 10000000 0 10000000;\nIOLIST;\nENDIOLIST;\nENDMODULE;\n";
    let design = design_text(rt.alloc(), module, "u1 H;\n")?;
    let mut shelf = shelf_with(rt.alloc(), RULES, design.as_str())?;
    let high = noted(rt.alloc(), ROUTE, &mut shelf)?;
    assert_eq!(rt;
        high.as_str(),
        "my.yal: the layout would be 1000001600 centimicrons high; 1000000000 at most may be: fewer rows (--rows K), or a smaller grid.centi, which is 100 [limit Height 1000001600]\n"
    );
    Ok(())
}
