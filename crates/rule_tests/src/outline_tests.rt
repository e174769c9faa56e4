//! Outlines that overlap or are out of row.

use crate::shapes::{On, Placed, shapes_of};
use geom_core::ShapesInReach;
use rule_check::{out_of_row, overlaps};
use samples::sample_rules;
use std::alloc::{AllocError, Global};
use std::test::Fail;

/// Shapes, and the pairs of them that a check finds.
type Paired = (&'static [Placed], &'static [(u32, u32)]);

/// Whether just these pairs of outlines overlap.
fn do_overlap(alloc: Global, table: &[Placed], want: &[(u32, u32)]) -> Result<bool, AllocError> {
    let rules = sample_rules(alloc)?;
    let shapes = shapes_of(alloc, &rules, table)?;
    if shapes.len() > 100 {
        return Ok(false);
    }
    let pairs = overlaps(alloc, &ShapesInReach::new(shapes.as_slice()), &rules)?;
    Ok(pairs.whole && pairs.list.as_slice() == want)
}

const OVERLAPS: [Paired; 3] = [
    (&[], &[]),
    // outlines that touch
    (
        &[
            (On::Outline, 0, 0, 10, 10),
            (On::Outline, 10, 0, 10, 10),
            (On::Outline, 0, 10, 10, 10),
            (On::Outline, 20, 10, 10, 10),
        ],
        &[],
    ),
    // outlines that share an inner point
    (
        &[
            (On::Vertical, 0, 0, 100, 100),
            (On::Outline, 0, 0, 10, 10),
            (On::Outline, 50, 50, 10, 10),
            (On::Outline, 9, 9, 42, 42),
        ],
        &[(1, 3), (2, 3)],
    ),
];

#[test]
fn outlines_that_share_an_inner_point_overlap(rt: HostRuntime) -> Result<(), Fail> {
    for (table, want) in OVERLAPS {
        assert!(rt; do_overlap(rt.alloc(), table, want)?);
    }
    Ok(())
}

/// Whether just these pairs of outlines are out of row.
fn are_out_of_row(
    alloc: Global,
    table: &[Placed],
    want: &[(u32, u32)],
) -> Result<bool, AllocError> {
    let rules = sample_rules(alloc)?;
    let shapes = shapes_of(alloc, &rules, table)?;
    if shapes.len() > 100 {
        return Ok(false);
    }
    let pairs = out_of_row(alloc, &ShapesInReach::new(shapes.as_slice()), &rules)?;
    Ok(pairs.whole && pairs.list.as_slice() == want)
}

const ROWS: [Paired; 3] = [
    (
        &[
            (On::Outline, 0, 0, 10, 10),
            (On::Outline, 5, 0, 20, 10),
            (On::Outline, 900, 10, 10, 7),
            (On::Horizontal, 0, 5, 10, 10),
        ],
        &[],
    ),
    (
        &[
            (On::Outline, 0, 0, 10, 10),
            (On::Outline, 500, 0, 10, 11),
            (On::Outline, 900, 10, 10, 10),
            (On::Outline, 0, 0, 10, 10),
        ],
        &[(1, 2)],
    ),
    (
        &[
            (On::Outline, 0, 0, 10, 10),
            (On::Outline, 500, 3, 10, 7),
            (On::Outline, 900, 3, 10, 9),
        ],
        &[(0, 1), (0, 2)],
    ),
];

#[test]
fn outlines_in_rows_and_out_of_row(rt: HostRuntime) -> Result<(), Fail> {
    for (table, want) in ROWS {
        assert!(rt; are_out_of_row(rt.alloc(), table, want)?);
    }
    Ok(())
}
