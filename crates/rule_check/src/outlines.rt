//! Outlines that overlap, and outlines of different rows that share an inner height.

ghost use Rattle.geom_core.specs.declared.layout.Shape.{Shape};
ghost use Rattle.rule_check.specs.Crowded.{are_out_of_row, do_overlap};
ghost use Rattle.rule_check.specs.Failing.{failing_pairs, AreFirstOf};
ghost use Rattle.rule_check.specs.Members.{flat, members_from, outline_member, row_member};
ghost use Rattle.rule_check.specs.Narrow.{is_on};
ghost use Rattle.rule_check.specs.Rows.{AreNumbersOf, AreRows, row_at};
ghost use Rattle.std.specs.BTreeMap.{btree_map_len};
ghost use Rattle.std.specs.List.{zip};
ghost use Rattle.std.specs.Prelude.{◌≡◌, ◌+◌, ◌<◌, ◌≤◌, ◌^◌, ℕ, ℤ, length, true, All, IfOk, Some};

use crate::measures::is_on;
use crate::pairs::{Pairs, crowded, push_made};
use crate::rows::{Rows, row_of};
use close_rects::Member;
use geom_core::{Rect, Shape, ShapesInReach};
use std::alloc::{AllocError, Global};
use std::collections::BTreeMap;
use tech_rules::Rules;

// The reach at which just those rectangles are close that share an inner point.
const INNER: i64 = 0;

/// The pairs of outlines that share an inner point. The one error is want of memory.
pub fn overlaps(alloc: Global, judged: &ShapesInReach, rules: &Rules) -> Result<Pairs, AllocError>
    ensures { IfOk result (AreFirstOf (failing_pairs (do_overlap rules.now) judged.now)) }
{
    let _ = judged.shapes();
    let members = outline_members(alloc, judged, rules)?;
    crowded(alloc, members.as_slice())
}

/// The pairs of outlines that stand at different heights and share an inner height. The one error is want of memory.
pub fn out_of_row(alloc: Global, judged: &ShapesInReach, rules: &Rules) -> Result<Pairs, AllocError>
    ensures { IfOk result (AreFirstOf (failing_pairs (are_out_of_row rules.now) judged.now)) }
{
    let _ = judged.shapes();
    let numbers = row_numbers(alloc, judged, rules)?;
    let members = row_members(alloc, judged, rules, numbers.as_slice())?;
    crowded(alloc, members.as_slice())
}

// The outlines as members, each of a class of its own.
fn outline_members(
    alloc: Global,
    judged: &ShapesInReach,
    rules: &Rules,
) -> Result<Vec<Member>, AllocError>
    ensures { IfOk result (λ v. v.items ≡ members_from (outline_member rules.now) 0 judged.now) }
{
    let shapes = judged.shapes();
    let mut members = Vec::new(alloc);
    for k in 0..shapes.len() {
        let made = outline_member(rules, &shapes[k], k as u32);
        push_made(&mut members, made)?;
    }
    Ok(members)
}

fn outline_member(rules: &Rules, shape: &Shape, number: u32) -> Option<Member>
    ensures { result ≡ outline_member rules.now number shape.now }
{
    if !is_on(&rules.outline.layer, shape) {
        return None;
    }
    Some(Member {
        number,
        class: number,
        rect: shape.rect,
        reach: INNER,
    })
}

// The heights of the outlines as members, whose classes are the numbers of their rows.
fn row_members(
    alloc: Global,
    judged: &ShapesInReach,
    rules: &Rules,
    numbers: &[u32],
) -> Result<Vec<Member>, AllocError>
    requires { length numbers.now ≡ length judged.now }
    ensures { IfOk result (λ v. v.items ≡ members_from (row_member rules.now) 0 (zip numbers.now judged.now)) }
{
    let shapes = judged.shapes();
    let mut members = Vec::new(alloc);
    for k in 0..shapes.len() {
        let made = row_member(rules, &shapes[k], numbers[k], k as u32);
        push_made(&mut members, made)?;
    }
    Ok(members)
}

fn row_member(rules: &Rules, shape: &Shape, class: u32, number: u32) -> Option<Member>
    ensures { result ≡ row_member rules.now number (class, shape.now) }
{
    if !is_on(&rules.outline.layer, shape) {
        return None;
    }
    Some(Member {
        number,
        class,
        rect: flat(&shape.rect),
        reach: INNER,
    })
}

// A rectangle of the same heights in one place.
fn flat(rect: &Rect) -> Rect
    ensures { result ≡ flat rect.now }
{
    Rect {
        x0: 0,
        y0: rect.y0,
        x1: 1,
        y1: rect.y1,
    }
}

// A number for each shape: of outlines, equal ones exactly for those that stand at the same height.
fn row_numbers(alloc: Global, judged: &ShapesInReach, rules: &Rules) -> Result<Vec<u32>, AllocError>
    ensures { IfOk result (λ v. AreNumbersOf rules.now.outline.layer judged.now v.items) }
{
    let shapes = judged.shapes();
    let mut rows = BTreeMap::new(alloc);
    let mut numbers = Vec::with_capacity(alloc, shapes.len())?;
    for k in 0..shapes.len() {
        let number = number_of(&mut rows, rules, &shapes[k])?;
        numbers.push(number)?;
    }
    Ok(numbers)
}

// The number of the row of an outline; 0 for another shape.
fn number_of(rows: &mut Rows, rules: &Rules, shape: &Shape) -> Result<u32, AllocError>
    requires few { btree_map_len rows.old < 2 ^ 32 }
    requires numbered { AreRows rows.old }
    ensures numbered { AreRows rows.new }
    ensures told { IfOk result (λ n. is_on rules.now.outline.layer shape.now ≡ true → row_at rows.new shape.now.rect.y0 ≡ Some n) }
    ensures kept { (h : ℤ) (n : ℕ) → row_at rows.old h ≡ Some n → row_at rows.new h ≡ Some n }
    ensures len { btree_map_len rows.new ≤ btree_map_len rows.old + 1 }
{
    if is_on(&rules.outline.layer, shape) {
        row_of(rows, shape.rect.y0)
    } else {
        Ok(0)
    }
}
