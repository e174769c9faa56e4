//! Wires and cuts that are too narrow, bare or too close.

use crate::shapes::{On, Placed, shapes_of};
use geom_core::ShapesInReach;
use rule_check::{bare_cuts, close_pairs, narrow};
use samples::sample_rules;
use std::alloc::{AllocError, Global};
use std::test::Fail;

/// Shapes, and the numbers of those that a check finds.
type Numbered = (&'static [Placed], &'static [u32]);

/// Whether just these shapes are too narrow.
fn are_narrow(alloc: Global, table: &[Placed], want: &[u32]) -> Result<bool, AllocError> {
    let rules = sample_rules(alloc)?;
    let shapes = shapes_of(alloc, &rules, table)?;
    if shapes.len() > 100 {
        return Ok(false);
    }
    Ok(narrow(alloc, &ShapesInReach::new(shapes.as_slice()), &rules)?.as_slice() == want)
}

/// Whether just these cuts are bare.
fn are_bare(alloc: Global, table: &[Placed], want: &[u32]) -> Result<bool, AllocError> {
    let rules = sample_rules(alloc)?;
    let shapes = shapes_of(alloc, &rules, table)?;
    if shapes.len() > 100 {
        return Ok(false);
    }
    Ok(bare_cuts(alloc, &ShapesInReach::new(shapes.as_slice()), &rules)?.as_slice() == want)
}

const NARROW: [Numbered; 3] = [
    (&[], &[]),
    (
        &[
            (On::Horizontal, 0, 0, 600, 600),
            (On::Horizontal, 0, 0, 599, 900),
            (On::Vertical, 0, 0, 900, 599),
            (On::Vertical, 0, 0, 900, 601),
        ],
        &[1, 2],
    ),
    (
        &[
            (On::Cut, 0, 0, 400, 401),
            (On::Cut, 0, 0, 400, 400),
            (On::Cut, 0, 0, 399, 399),
            (On::Outline, 0, 0, 1, 1),
        ],
        &[0, 2],
    ),
];

#[test]
fn wires_and_cuts_that_are_too_narrow(rt: HostRuntime) -> Result<(), Fail> {
    for (table, want) in NARROW {
        assert!(rt; are_narrow(rt.alloc(), table, want)?);
    }
    Ok(())
}

const BARE: [Numbered; 4] = [
    (&[], &[]),
    // the cut with what encloses it reaches from 0 to 800, and both layers enclose it
    (
        &[
            (On::Cut, 200, 200, 400, 400),
            (On::Vertical, 0, 0, 800, 800),
            (On::Horizontal, 0, 0, 800, 800),
        ],
        &[],
    ),
    // no wire of a layer encloses the first and the last cut
    (
        &[
            (On::Vertical, 0, 0, 800, 2000),
            (On::Horizontal, 0, 0, 800, 799),
            (On::Cut, 200, 200, 400, 400),
            (On::Horizontal, 0, 1000, 800, 800),
            (On::Cut, 200, 1200, 400, 400),
            (On::Horizontal, 0, 3000, 800, 800),
            (On::Cut, 200, 3200, 400, 400),
        ],
        &[2, 6],
    ),
    // two wires cover the cut together
    (
        &[
            (On::Cut, 200, 200, 400, 400),
            (On::Vertical, 0, 0, 800, 800),
            (On::Horizontal, 0, 0, 500, 800),
            (On::Horizontal, 300, 0, 500, 800),
        ],
        &[0],
    ),
];

#[test]
fn cuts_that_no_wire_of_a_layer_encloses(rt: HostRuntime) -> Result<(), Fail> {
    for (table, want) in BARE {
        assert!(rt; are_bare(rt.alloc(), table, want)?);
    }
    Ok(())
}

/// Whether just these pairs of shapes with these classes are too close.
fn are_close(
    alloc: Global,
    table: &[Placed],
    classes: &[u32],
    want: &[(u32, u32)],
) -> Result<bool, AllocError> {
    let rules = sample_rules(alloc)?;
    let shapes = shapes_of(alloc, &rules, table)?;
    if shapes.len() > 100 || classes.len() != shapes.len() {
        return Ok(false);
    }
    let pairs = close_pairs(
        alloc,
        &ShapesInReach::new(shapes.as_slice()),
        &rules,
        classes,
    )?;
    Ok(pairs.whole && pairs.list.as_slice() == want)
}

/// Shapes, their classes, and the pairs that are too close.
type Classed = (&'static [Placed], &'static [u32], &'static [(u32, u32)]);

const THREE_WIRES: [Placed; 3] = [
    (On::Horizontal, 0, 0, 600, 600),
    (On::Horizontal, 1200, 0, 600, 600),
    (On::Horizontal, 2399, 0, 600, 600),
];

const CLOSE: [Classed; 6] = [
    (&[], &[], &[]),
    // wires at the space and below, of different classes and of one
    (&THREE_WIRES, &[5, 6, 7], &[(1, 2)]),
    (&THREE_WIRES, &[5, 6, 6], &[]),
    // corners that touch
    (
        &[
            (On::Vertical, 0, 0, 600, 600),
            (On::Vertical, 600, 600, 600, 600),
        ],
        &[0, 1],
        &[(0, 1)],
    ),
    // shapes of different layers, and outlines, keep no space
    (
        &[
            (On::Horizontal, 0, 0, 600, 600),
            (On::Vertical, 0, 0, 600, 600),
            (On::Cut, 100, 100, 400, 400),
            (On::Outline, 0, 0, 600, 600),
        ],
        &[0, 1, 2, 3],
        &[],
    ),
    (
        &[
            (On::Outline, 0, 0, 600, 600),
            (On::Cut, 0, 0, 400, 400),
            (On::Outline, 0, 0, 600, 600),
            (On::Cut, 0, 999, 400, 400),
        ],
        &[0, 1, 2, 3],
        &[(1, 3)],
    ),
];

#[test]
fn shapes_that_are_too_close(rt: HostRuntime) -> Result<(), Fail> {
    for (table, classes, want) in CLOSE {
        assert!(rt; are_close(rt.alloc(), table, classes, want)?);
    }
    Ok(())
}
