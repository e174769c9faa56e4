//! Members of classes: a short row, and a million that overlap.

ghost use Rattle.close_rects.specs.Crowds.{KeepsInReach};
ghost use Rattle.geom_core.specs.Reach.{IsExtentInWideReach};
ghost use Rattle.std.specs.Prelude.{◌<◌, ◌≤◌, ◌≤ℤ◌, ◌^◌, pos, length, All, IfOk};

use crate::large_tests::{grid, stairs};
use close_rects::{Member, first_pairs};
use geom_core::Rect;
use std::alloc::{AllocError, Global};
use std::test::Fail;

// A rectangle of height 2.
fn member(number: u32, class: u32, left: u32, right: u32, reach: i64) -> Member
    requires across { left < right }
    requires low { pos 0 ≤ℤ reach }
    requires high { reach ≤ℤ pos 10000 }
    ensures { KeepsInReach result }
{
    Member {
        number,
        class,
        rect: Rect {
            x0: i64::from(left),
            y0: 0,
            x1: i64::from(right),
            y1: 2,
        },
        reach,
    }
}

// Two squares side by side and a thin rectangle one apart from them, of three classes.
fn row(reach: i64) -> [Member; 3]
    requires low { pos 0 ≤ℤ reach }
    requires high { reach ≤ℤ pos 10000 }
    ensures few { length result < 2 ^ 32 }
    ensures reach { All KeepsInReach result }
{
    [
        member(10, 1, 0, 2, reach),
        member(30, 2, 2, 4, reach),
        member(20, 3, 5, 6, reach),
    ]
}

#[test]
fn members_that_overlap_touch_and_are_near(rt: HostRuntime) -> Result<(), Fail> {
    let apart = first_pairs(rt.alloc(), &row(0), 9)?;
    assert_eq!(rt; apart.as_slice(), [].as_slice());
    let touching = first_pairs(rt.alloc(), &row(1), 9)?;
    assert_eq!(rt; touching.as_slice(), [(10, 30)].as_slice());
    let near = first_pairs(rt.alloc(), &row(2), 9)?;
    assert_eq!(rt; near.as_slice(), [(10, 30), (30, 20)].as_slice());
    Ok(())
}

#[test]
fn the_first_of_the_pairs_in_order(rt: HostRuntime) -> Result<(), Fail> {
    let all = first_pairs(rt.alloc(), &row(4), 9)?;
    assert_eq!(rt; all.as_slice(), [(10, 30), (10, 20), (30, 20)].as_slice());
    let two = first_pairs(rt.alloc(), &row(4), 2)?;
    assert_eq!(rt; two.as_slice(), [(10, 30), (10, 20)].as_slice());
    let none = first_pairs(rt.alloc(), &row(4), 0)?;
    assert_eq!(rt; none.as_slice(), [].as_slice());
    Ok(())
}

#[test]
fn members_of_one_class_do_not_crowd(rt: HostRuntime) -> Result<(), Fail> {
    let members = [
        member(0, 7, 0, 2, 2),
        member(1, 8, 1, 4, 2),
        member(2, 7, 5, 6, 2),
        member(3, 8, 3, 9, 2),
    ];
    let pairs = first_pairs(rt.alloc(), &members, 9)?;
    assert_eq!(rt;
        pairs.as_slice(),
        [(0, 1), (0, 3), (1, 2), (2, 3)].as_slice()
    );
    Ok(())
}

// The reach is that of the one that stands first in the list.
#[test]
fn each_has_a_reach_of_its_own(rt: HostRuntime) -> Result<(), Fail> {
    let reaching = [member(0, 1, 0, 2, 2), member(1, 2, 3, 4, 0)];
    let pairs = first_pairs(rt.alloc(), &reaching, 9)?;
    assert_eq!(rt; pairs.as_slice(), [(0, 1)].as_slice());
    let reached = [member(0, 1, 0, 2, 0), member(1, 2, 3, 4, 2)];
    let none = first_pairs(rt.alloc(), &reached, 9)?;
    assert_eq!(rt; none.as_slice(), [].as_slice());
    Ok(())
}

// These rectangles as members, numbered from 0 on, of which those from place `own` on have classes of their own and the others
// have one class.
fn crowd(alloc: Global, rects: &[Rect], own: usize, reach: i64) -> Result<Vec<Member>, AllocError>
    requires few { length rects.now < 2 ^ 32 }
    requires wide { All IsExtentInWideReach rects.now }
    requires low { pos 0 ≤ℤ reach }
    requires high { reach ≤ℤ pos 10000 }
    ensures few { IfOk result (λ v. length v.items < 2 ^ 32) }
    ensures reach { IfOk result (λ v. All KeepsInReach v.items) }
{
    let mut members = Vec::with_capacity(alloc, rects.len())?;
    for k in 0..rects.len() {
        members.push(numbered(&rects[k], k as u32, own, reach))?;
    }
    Ok(members)
}

fn numbered(rect: &Rect, number: u32, own: usize, reach: i64) -> Member
    requires wide { IsExtentInWideReach rect.now }
    requires low { pos 0 ≤ℤ reach }
    requires high { reach ≤ℤ pos 10000 }
    ensures { KeepsInReach result }
{
    let class = if (number as usize) < own { 0 } else { number };
    Member {
        number,
        class,
        rect: *rect,
        reach,
    }
}

// A million squares that all overlap.
fn pile(alloc: Global, own: usize) -> Result<Vec<Member>, AllocError>
    ensures few { IfOk result (λ v. length v.items < 2 ^ 32) }
    ensures reach { IfOk result (λ v. All KeepsInReach v.items) }
{
    let squares = stairs(alloc, 1_000_000, 1, 2_000_000)?;
    crowd(alloc, squares.as_slice(), own, 0)
}

#[test]
fn a_million_of_one_class(rt: HostRuntime) -> Result<(), Fail> {
    let members = pile(rt.alloc(), 1_000_000)?;
    let pairs = first_pairs(rt.alloc(), members.as_slice(), 1001)?;
    assert_eq!(rt; pairs.len(), 0);
    Ok(())
}

#[test]
fn a_million_of_different_classes(rt: HostRuntime) -> Result<(), Fail> {
    let members = pile(rt.alloc(), 0)?;
    let pairs = first_pairs(rt.alloc(), members.as_slice(), 1001)?;
    assert_eq!(rt; pairs.len(), 1001);
    for (k, pair) in pairs.as_slice().iter().enumerate() {
        assert_eq!(rt; pair.0, 0);
        assert_eq!(rt; pair.1 as usize, k + 1);
    }
    Ok(())
}

// Each of the others overlaps the last, which alone has another class.
#[test]
fn one_among_a_million_of_another_class(rt: HostRuntime) -> Result<(), Fail> {
    let members = pile(rt.alloc(), 999_999)?;
    let pairs = first_pairs(rt.alloc(), members.as_slice(), 1001)?;
    assert_eq!(rt; pairs.len(), 1001);
    for (k, pair) in pairs.as_slice().iter().enumerate() {
        assert_eq!(rt; pair.0 as usize, k);
        assert_eq!(rt; pair.1, 999_999);
    }
    Ok(())
}

// Squares 800 apart keep a distance of 800.
#[test]
fn a_grid_that_keeps_its_distance(rt: HostRuntime) -> Result<(), Fail> {
    let squares = grid(rt.alloc(), 1000, 1000, 1000, 200)?;
    let members = crowd(rt.alloc(), squares.as_slice(), 0, 800)?;
    assert_eq!(rt; members.len(), 1_000_000);
    let pairs = first_pairs(rt.alloc(), members.as_slice(), 1001)?;
    assert_eq!(rt; pairs.len(), 0);
    Ok(())
}
