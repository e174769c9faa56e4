//! The first thousand pairs, and a million shapes.

ghost use Rattle.std.specs.Prelude.{◌<◌, ◌≤◌, length};

use crate::shapes::{On, grid, layer_of, numbers, stairs};
use geom_core::ShapesInReach;
use rule_check::{Pairs, close_pairs, out_of_row, overlaps};
use samples::sample_rules;
use std::alloc::{AllocError, Global};
use std::test::Fail;

// The pairs of squares with these classes, of which each begins a step right of and above the one before.
fn close_stairs(
    alloc: Global,
    on: On,
    step: u32,
    side: u32,
    classes: &[u32],
) -> Result<Pairs, AllocError>
    requires few { length classes.now ≤ 1000000 }
    requires flat { step ≤ 1000 }
    requires some { 0 < side }
{
    let rules = sample_rules(alloc)?;
    let shapes = stairs(alloc, layer_of(&rules, on), classes.len(), step, side)?;
    close_pairs(
        alloc,
        &ShapesInReach::new(shapes.as_slice()),
        &rules,
        classes,
    )
}

// So many squares in one place, all of one class but the first.
fn star(alloc: Global, count: usize) -> Result<Pairs, AllocError>
    requires { count ≤ 1000000 }
{
    let mut classes = numbers(alloc, count, count)?;
    if let Some(first) = classes.as_mut_slice().first_mut() {
        *first = 1;
    }
    close_stairs(alloc, On::Horizontal, 0, 600, classes.as_slice())
}

#[test]
fn a_thousand_pairs_are_whole(rt: HostRuntime) -> Result<(), Fail> {
    let pairs = star(rt.alloc(), 1001)?;
    assert_eq!(rt; pairs.list.len(), 1000);
    assert!(rt; pairs.whole);
    Ok(())
}

#[test]
fn a_thousand_and_one_are_not(rt: HostRuntime) -> Result<(), Fail> {
    let pairs = star(rt.alloc(), 1002)?;
    assert_eq!(rt; pairs.list.len(), 1000);
    assert!(rt; !pairs.whole);
    Ok(())
}

// Squares of 200 that are 800 apart.
#[test]
fn a_million_that_keep_their_space(rt: HostRuntime) -> Result<(), Fail> {
    let classes = numbers(rt.alloc(), 1_000_000, 0)?;
    let pairs = close_stairs(rt.alloc(), On::Horizontal, 1000, 200, classes.as_slice())?;
    assert_eq!(rt; pairs.list.len(), 0);
    assert!(rt; pairs.whole);
    Ok(())
}

#[test]
fn a_million_in_one_place_of_one_class(rt: HostRuntime) -> Result<(), Fail> {
    let classes = numbers(rt.alloc(), 1_000_000, 1_000_000)?;
    let pairs = close_stairs(rt.alloc(), On::Vertical, 0, 600, classes.as_slice())?;
    assert_eq!(rt; pairs.list.len(), 0);
    assert!(rt; pairs.whole);
    Ok(())
}

#[test]
fn a_million_in_one_place_of_different_classes(rt: HostRuntime) -> Result<(), Fail> {
    let classes = numbers(rt.alloc(), 1_000_000, 0)?;
    let pairs = close_stairs(rt.alloc(), On::Cut, 0, 600, classes.as_slice())?;
    assert_eq!(rt; pairs.list.len(), 1000);
    assert!(rt; !pairs.whole);
    assert_eq!(rt; pairs.list.as_slice().first().copied(), Some((0, 1)));
    assert_eq!(rt; pairs.list.as_slice().last().copied(), Some((0, 1000)));
    Ok(())
}

// A thousand rows of a thousand outlines, which touch.
#[test]
fn a_million_outlines_in_rows(rt: HostRuntime) -> Result<(), Fail> {
    let sample = sample_rules(rt.alloc())?;
    let rules = &sample;
    let shapes = grid(rt.alloc(), rules.outline.layer, 1000, 1000, 1000, 1000)?;
    assert_eq!(rt; shapes.len(), 1_000_000);
    let overlapping = overlaps(rt.alloc(), &ShapesInReach::new(shapes.as_slice()), rules)?;
    assert_eq!(rt; overlapping.list.len(), 0);
    assert!(rt; overlapping.whole);
    let out = out_of_row(rt.alloc(), &ShapesInReach::new(shapes.as_slice()), rules)?;
    assert_eq!(rt; out.list.len(), 0);
    assert!(rt; out.whole);
    Ok(())
}
