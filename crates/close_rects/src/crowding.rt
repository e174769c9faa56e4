//! The first pairs of members of different classes that are too close, in the order of their list.

ghost use Rattle.close_rects.specs.Crowds.{KeepsInReach, crowds_of, places_from};
ghost use Rattle.close_rects.specs.declared.member.Member.{Member};
ghost use Rattle.close_rects.specs.Kins.{pairs_of};
ghost use Rattle.std.specs.List.{slice_get};
ghost use Rattle.std.specs.Prelude.{◌≡◌, ◌+◌, [], ◌∷◌, ◌++◌, nat_lt, if◌then◌else◌, ◌<◌, ◌≤◌, ◌^◌, length, drop, take, All, IfOk, OnOk, Some};

use crate::bounds::Bounds;
use crate::crowd::Crowd;
use crate::member::Member;
use crate::members::Members;
use crate::reach::CloseLength;
use std::alloc::{AllocError, Global};

/// The first pairs of members of different classes of which both gaps are below the reach of the first, `most` of them at most: by
/// their numbers, the first of which stands before the second in the list, and in the order of the list. There are fewer than
/// 2^32 members, whose sides lie within 10^16 half centimicrons, and whose reaches are 0 to 10^16 of these. The one error is
/// want of memory.
/// Runs of blocks that are all of the asking class are passed over, so that members of one class may lie one on another. A row
/// takes as long as there are members that crowd its own, those before it too; where all reaches are equal, these have been given
/// as pairs already. No bound is promised.
pub fn first_pairs(
    alloc: Global,
    members: &[Member],
    most: usize,
) -> Result<Vec<(u32, u32)>, AllocError>
    requires few { length members.now < 2 ^ 32 }
    requires reach { All KeepsInReach members.now }
    ensures { IfOk result (λ v. v.items ≡ take most (crowds_of members.now)) }
{
    let crowd = Crowd::of(alloc, Members::new(members))?;
    rows(alloc, &crowd, most)
}

// The pairs of each member with those after it.
fn rows(alloc: Global, crowd: &Crowd, most: usize) -> Result<Vec<(u32, u32)>, AllocError>
    ensures { IfOk result (λ v. v.items ≡ take most (crowds_of crowd.now.members)) }
{
    let mut pairs = Vec::new(alloc);
    let mut row = 0;
    while row < crowd.members().len() && pairs.len() < most {
        let places = places_after(alloc, crowd, row)?;
        let number = crowd.members().at(row).number;
        add_pairs(&mut pairs, crowd.members(), number, places.as_slice(), most)?;
        row += 1;
    }
    Ok(pairs)
}

// The places in the list of the members after one of them that crowd it.
fn places_after(alloc: Global, crowd: &Crowd, row: usize) -> Result<Vec<u32>, AllocError>
    requires { row < length crowd.now.members }
    ensures { IfOk result (λ v. (a : Member) → slice_get crowd.now.members row ≡ Some a
        → v.items ≡ places_from (row + 1) a (drop (row + 1) crowd.now.members)) }
{
    let member = crowd.members().at(row);
    let window = Bounds::near(
        &member.rect,
        CloseLength {
            length: member.reach,
        },
    );
    let mut places = Vec::new(alloc);
    let mut at = 0;
    while let Some(found) = crowd.first_stranger(&window, member.class, at) {
        push_later(&mut places, crowd.items().at(found).number, row)?;
        at = found + 1;
    }
    places.sort_unstable();
    Ok(places)
}

// Puts a place at the end of a list if it lies after the row.
fn push_later(places: &mut Vec<u32>, place: u32, row: usize) -> Result<(), AllocError>
    ensures { OnOk result (places.new.items ≡ (if nat_lt row place then places.old.items ++ place ∷ [] else places.old.items)) }
{
    if place as usize > row {
        places.push(place)?;
    }
    Ok(())
}

// Puts the pairs of a number with those of the members at some places at the end of a list, which then has `most` at most.
fn add_pairs(
    pairs: &mut Vec<(u32, u32)>,
    members: &Members,
    number: u32,
    places: &[u32],
    most: usize,
) -> Result<(), AllocError>
    requires within { All (λ place. place < length members.now) places.now }
    requires room { length pairs.old.items ≤ most }
    ensures { OnOk result (pairs.new.items ≡ take most (pairs.old.items ++ pairs_of members.now number places.now)) }
{
    let count = places.len().min(most - pairs.len());
    for place in &places[..count] {
        pairs.push((number, members.at(*place as usize).number))?;
    }
    Ok(())
}
