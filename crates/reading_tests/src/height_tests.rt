//! Cells of several heights in one design.

use crate::odd_cells::refusal;
use design_model::{Design, Position};
use samples::{SampleFault, designed};
use std::alloc::{AllocError, Global};
use std::test::Fail;

/// The design of cells of one column, each with its name, its lower and its upper y and the y of its pin, and of these calls.
fn design_with(
    alloc: Global,
    cells: &[(&str, i64, i64, i64)],
    calls: &str,
) -> Result<Design, SampleFault> {
    let mut text = String::new(alloc);
    for (name, low, high, y) in cells {
        write!(
            text,
            "MODULE {name}; TYPE STANDARD; DIMENSIONS 0 {low} 8 {low} 8 {high} 0 {high}; IOLIST; a I 4 {y} 3 POLY; ENDIOLIST; ENDMODULE;\n"
        )?;
    }
    designed(alloc, text.as_str(), calls)
}

/// Whether the kinds of a design have these heights, and the design this one.
fn are_heights(design: &Design, kinds: &[u32], height: u32) -> bool {
    let found = design.kinds.items();
    if found.len() != kinds.len() || design.height != height {
        return false;
    }
    for (kind, wanted) in found.iter().zip(kinds) {
        if kind.height != *wanted {
            return false;
        }
    }
    true
}

/// Whether each kind of a design has one position, which is at this edge.
fn are_at_edge(design: &Design, top: bool) -> bool {
    let wanted = Position {
        terminal: 0,
        top,
        column: 0,
    };
    for kind in design.kinds.items() {
        if kind.positions.items() != [wanted].as_slice() {
            return false;
        }
    }
    true
}

/// Whether these cells, of which each is called once, are refused so.
fn is_refused(
    alloc: Global,
    cells: &[(&str, i64, i64, i64)],
    want: &str,
) -> Result<bool, AllocError> {
    let mut calls = String::new(alloc);
    for (name, ..) in cells {
        write!(calls, "u{name} {name} n;")?;
    }
    let design = design_with(alloc, cells, calls.as_str());
    Ok(refusal(alloc, &design)?.as_str() == want)
}

/// The highest cell may be the last or the first, and one that is not called is not counted. A pin is at the top at its own cell's height.
#[test]
fn kinds_have_heights_of_their_own(rt: HostRuntime) -> Result<(), Fail> {
    let alloc = rt.alloc();
    let rising = [("A", 0, 40, 40), ("B", 0, 56, 56), ("C", 0, 80, 80)];
    let design = design_with(alloc, &rising, "u A m; v B n;")?;
    assert!(rt; are_heights(&design, &[40, 56], 56));
    assert!(rt; are_at_edge(&design, true));
    let falling = [("B", 0, 56, 0), ("A", 0, 40, 0)];
    let design = design_with(alloc, &falling, "u A m; v B n;")?;
    assert!(rt; are_heights(&design, &[56, 40], 56));
    assert!(rt; are_at_edge(&design, false));
    Ok(())
}

/// Cells stand in the order of the file, whatever the order of the calls; 11 units are just two pins and a space.
#[test]
fn five_heights_are_one_design(rt: HostRuntime) -> Result<(), Fail> {
    let alloc = rt.alloc();
    let cells = [
        ("A", 0, 40, 40),
        ("B", 0, 11, 11),
        ("C", -32, 64, 64),
        ("D", 0, 48, 48),
        ("E", 8, 32, 32),
    ];
    let calls = "v E a; w C b; x A a; y C a; z D b; t B b;";
    let design = design_with(alloc, &cells, calls)?;
    assert!(rt; are_heights(&design, &[40, 11, 96, 48, 24], 96));
    assert!(rt; are_at_edge(&design, true));
    Ok(())
}

#[test]
fn no_instances_have_no_height(rt: HostRuntime) -> Result<(), Fail> {
    let design = design_with(rt.alloc(), &[("A", 0, 40, 40), ("B", 0, 56, 56)], "")?;
    assert!(rt; are_heights(&design, &[], 0));
    Ok(())
}

/// A cell is too low by its own height, whatever that of another.
#[test]
fn a_low_cell_is_refused_beside_a_high_one(rt: HostRuntime) -> Result<(), Fail> {
    let alloc = rt.alloc();
    assert!(rt; is_refused(alloc, &[("A", 0, 40, 40), ("B", 0, 10, 10)], "TooLow(1)")?);
    assert!(rt; is_refused(alloc, &[("B", 0, 10, 10), ("A", 0, 40, 40)], "TooLow(0)")?);
    assert!(rt; is_refused(alloc, &[("A", 0, 40, 40), ("B", 0, 11, 11)], "")?);
    // The places of pins come first.
    assert!(rt; is_refused(alloc, &[("A", 0, 40, 40), ("B", 0, 10, 40)], "OffGrid(1)")?);
    Ok(())
}

/// A pin is at an edge of its own cell, whatever the height of another.
#[test]
fn pins_are_at_the_edges_of_their_own_cells(rt: HostRuntime) -> Result<(), Fail> {
    let alloc = rt.alloc();
    assert!(rt; is_refused(alloc, &[("A", 0, 40, 40), ("B", 0, 56, 40)], "OffGrid(1)")?);
    assert!(rt; is_refused(alloc, &[("A", 0, 40, 56), ("B", 0, 56, 56)], "OffGrid(0)")?);
    assert!(rt; is_refused(alloc, &[("A", 0, 40, 40), ("B", -16, 40, 56)], "OffGrid(1)")?);
    assert!(rt; is_refused(alloc, &[("A", 0, 40, 40), ("B", -16, 40, 40)], "")?);
    Ok(())
}
