//! Mistakes in a design whose text is YAL, and the notes on them.

use crate::support::{GATES, ROUTE, changed, first_line, noted, shelf_with};
use samples::{INVERTER, RULES, design_text};
use std::test::Fail;

/// What is changed in the design, and the note.
const MISTAKES: &[(&str, &str)] = &[
    // The PARENT.
    (
        "TYPE PARENT => TYPE GENERAL",
        "my.yal: no module is of TYPE PARENT; one is wanted, whose NETWORK calls the cells [design NoParent]",
    ),
    (
        "TYPE STANDARD => TYPE PARENT",
        "my.yal:13:6: top is a second module of TYPE PARENT, and AND2 at line 2 is the first; one alone may be [design ManyParents]",
    ),
    // Calls.
    (
        "g1 AND2 => g1 and2",
        "my.yal:19:4: g1 calls and2, and no module has this name; did you mean AND2? [design UnknownModule g1]",
    ),
    (
        "g2 AND2 => g2 XOR2_X1",
        "my.yal:20:4: g2 calls XOR2_X1, and no module has this name [design UnknownModule g2]",
    ),
    (
        "TYPE STANDARD => TYPE PAD",
        "my.yal:19:4: g1 calls AND2, which is of TYPE PAD; only modules of TYPE STANDARD can be called [design NotStandard g1]",
    ),
    (
        "n3 vdd vss => n3",
        "my.yal:19:4: g1 calls AND2, which has 5 terminals, but gives 3 signals; a signal is wanted for its power terminals vdd, vss too [design SignalCount g1]",
    ),
    (
        "n1 n2 n3 => n1 n3",
        "my.yal:19:4: g1 calls AND2, which has 5 terminals, but gives 4 signals [design SignalCount g1]",
    ),
    // A semicolon is forgotten in a list.
    (
        "n3 vdd vss; => n3 vdd vss",
        "my.yal:19:4: g1 calls AND2, which has 5 terminals, but gives 12 signals; a ; is perhaps missing behind vss at the end of line 19 [design SignalCount g1]",
    ),
    (
        "b I 12 0 3 POLY; => b I 12 0 3 POLY",
        "my.yal:19:4: g1 calls AND2, which has 4 terminals, but gives 5 signals; a ; is perhaps missing behind POLY at the end of line 6 [design SignalCount g1]",
    ),
    // Corners.
    (
        "0 0 24 0 24 40 0 40 => 0 0 24 40",
        "my.yal:3:1: DIMENSIONS of AND2 have 4 numbers; 8 are wanted, the x and y of four corners, as DIMENSIONS 0 0 8 0 8 40 0 40; [design NoShape AND2]",
    ),
    (
        "24 0 24 40 => 24 40 24 0",
        "my.yal:3:1: DIMENSIONS of AND2 are not the corners of a rectangle one behind another, as DIMENSIONS 0 0 8 0 8 40 0 40; [design NoShape AND2]",
    ),
    (
        "DIMENSIONS 0 0 24 0 24 40 0 40;\n => ",
        "my.yal:1:8: AND2 has no DIMENSIONS; the four corners of its rectangle are wanted, as DIMENSIONS 0 0 8 0 8 40 0 40; [design NoShape AND2]",
    ),
    // Pins and the grid.
    (
        "24 0 24 40 => 25 0 25 40",
        "my.yal:3:1: AND2 is 25 wide; a whole number of columns of 8 is wanted (grid.column), as 24 [design OffGrid AND2]",
    ),
    (
        "b I 12 0 => b I 13 0",
        "my.yal:6:1: pin b of AND2 stands at x 13; columns of this width have their middle at 4, 12, 20 [design OffGrid AND2]",
    ),
    (
        "b I 12 0 => b I 12 20",
        "my.yal:6:1: pin b of AND2 stands at y 20; pins stand at an edge of their cell, y 0 or 40 [design OffGrid AND2]",
    ),
    (
        "24 0 24 40 => 32 0 32 40 & b I 12 => b I 8",
        "my.yal:6:1: pin b of AND2 stands at x 8; columns of this width have their middle at 4, 12, 20 .. [design OffGrid AND2]",
    ),
    (
        "b I 12 0 => b I 4 0",
        "my.yal:6:1: pin b of AND2 stands at x 4, y 0, where a stands too, at line 5 [design PinClash AND2]",
    ),
    (
        "b I 12 0 3 POLY => b I 12 0 3 METAL1",
        "my.yal:6:12: pin b of AND2 is on METAL1; the rules want pins on POLY (yal) [design WrongLayer AND2]",
    ),
    (
        "24 40 0 40 => 24 10 0 10 & 20 40 => 20 10",
        "my.yal:3:1: AND2 is 10 high; 11 at least are wanted, two pins and the space between them (2*4 + 3: grid.pin and vertical.space) [design TooLow AND2]",
    ),
];

#[test]
fn mistakes_in_a_design_have_notes(rt: HostRuntime) -> Result<(), Fail> {
    for (change, note) in MISTAKES {
        let design = changed(rt.alloc(), GATES, *change)?;
        let mut shelf = shelf_with(rt.alloc(), RULES, design.as_str())?;
        let notes = noted(rt.alloc(), ROUTE, &mut shelf)?;
        assert_eq!(rt; first_line(notes.as_str()), *note);
    }
    Ok(())
}

/// What is changed in the design where the terminals of the PARENT become ports, and the note.
const PORT_MISTAKES: &[(&str, &str)] = &[
    (
        "g1 AND2 => port:n1 AND2",
        "my.yal:19:1: an instance is named port:n1, as --ports names one of its own; another name is wanted [design PortClash port:n1]",
    ),
    (
        "MODULE top => MODULE port_south",
        "my.yal:12:8: a module is named port_south, as --ports names one of its own; another name is wanted [design PortClash port_south]",
    ),
];

#[test]
fn names_of_ports_have_notes(rt: HostRuntime) -> Result<(), Fail> {
    for (change, note) in PORT_MISTAKES {
        let design = changed(rt.alloc(), GATES, *change)?;
        let mut shelf = shelf_with(rt.alloc(), RULES, design.as_str())?;
        let notes = noted(
            rt.alloc(),
            "route|my.yal|rules.toml|o.cif|--ports",
            &mut shelf,
        )?;
        assert_eq!(rt; first_line(notes.as_str()), *note);
    }
    Ok(())
}

#[test]
fn lengths_have_the_decimals_of_the_design(rt: HostRuntime) -> Result<(), Fail> {
    let rules = changed(
        rt.alloc(),
        RULES,
        "version = 1\n => version = 2\ndecimals = 1\n",
    )?;
    let inverter = changed(
        rt.alloc(),
        INVERTER,
        "8 0 8 40 0 40 => 0.8 0 0.8 4 0 4.0 & I 4 0 => I 0.5 0",
    )?;
    let design = design_text(rt.alloc(), inverter.as_str(), "u1 INV n1;\n")?;
    let mut shelf = shelf_with(rt.alloc(), rules.as_str(), design.as_str())?;
    let notes = noted(rt.alloc(), ROUTE, &mut shelf)?;
    assert_eq!(rt;
        first_line(notes.as_str()),
        "my.yal:5:1: pin a of INV stands at x 0.5; columns of this width have their middle at 0.4 [design OffGrid INV]"
    );
    let finer = changed(rt.alloc(), design.as_str(), "I 0.5 => I 0.45")?;
    let mut shelf = shelf_with(rt.alloc(), rules.as_str(), finer.as_str())?;
    let notes = noted(rt.alloc(), ROUTE, &mut shelf)?;
    assert_eq!(rt;
        first_line(notes.as_str()),
        "my.yal:5:5: 0.45 has more decimals than the rules allow, decimals = 1 [yal Number 73]"
    );
    Ok(())
}
