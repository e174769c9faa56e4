//! A spiral: a corridor two wide and two apart, as a polygon of 2,000 points and as a wire of 1,000; and a wire that reaches far.

ghost use Rattle.region_cut.specs.Strokes.{IsCornerInReach};
ghost use Rattle.std.specs.List.{AllByRecursion};
ghost use Rattle.std.specs.Prelude.{◌≡◌, IfOk};

use crate::blocks::{Block, are_at, is_cut_into};
use crate::row_tests::corner_in_reach;
use geom_core::Corner;
use region_cut::strokes;
use std::alloc::{AllocError, Global};
use std::test::Fail;

fn corner(x: i64, y: i64) -> Corner
    ensures { result ≡ record { x = x; y = y } }
{
    Corner { x, y }
}

/// The outer side of the corridor, from its start out: each round has an arm to the right, one up, one to the left and one down.
fn put_outer(path: &mut Vec<Corner>, rounds: u16) -> Result<(), AllocError> {
    for round in 0..rounds {
        let out = 4 * i64::from(round);
        path.push(corner(-1 - out, -1 - out))?;
        path.push(corner(out + 5, -1 - out))?;
        path.push(corner(out + 5, out + 5))?;
        path.push(corner(-5 - out, out + 5))?;
    }
    Ok(())
}

/// Its inner side, from its end back: the last round has no arm down.
fn put_inner(path: &mut Vec<Corner>, rounds: u16) -> Result<(), AllocError> {
    for i in 0..rounds {
        let round = rounds - i - 1;
        let out = 4 * i64::from(round);
        let end = if i == 0 { -5 - out } else { -3 - out };
        let start = if round == 0 { -1 } else { 1 - out };
        path.push(corner(end, out + 3))?;
        path.push(corner(out + 3, out + 3))?;
        path.push(corner(out + 3, 1 - out))?;
        path.push(corner(start, 1 - out))?;
    }
    Ok(())
}

/// The four arms of a round.
fn arms(round: u16) -> [Block; 4] {
    let out = 4 * i64::from(round);
    [
        Block {
            low: -1 - out,
            left: -1 - out,
            high: 1 - out,
            right: out + 5,
        },
        Block {
            low: -1 - out,
            left: out + 3,
            high: out + 5,
            right: out + 5,
        },
        Block {
            low: out + 3,
            left: -5 - out,
            high: out + 5,
            right: out + 5,
        },
        Block {
            low: -5 - out,
            left: -5 - out,
            high: out + 5,
            right: -3 - out,
        },
    ]
}

/// Puts the arms whose lower sides lie as low as the one to the right of this round: that one, the one down of the round before it, and the one up.
fn put_low(blocks: &mut Vec<Block>, round: u16) -> Result<(), AllocError> {
    let now = arms(round);
    blocks.push(now[0])?;
    if round > 0 {
        blocks.push(arms(round - 1)[3])?;
    }
    blocks.push(now[1])?;
    Ok(())
}

/// All arms, by their lower and then their left sides.
fn spiral_blocks(alloc: Global, rounds: u16) -> Result<Vec<Block>, AllocError> {
    let mut blocks = Vec::new(alloc);
    for i in 0..rounds {
        put_low(&mut blocks, rounds - i - 1)?;
    }
    for round in 0..rounds {
        blocks.push(arms(round)[2])?;
    }
    Ok(blocks)
}

#[test]
fn a_spiral_is_cut_into_its_arms(rt: HostRuntime) -> Result<(), Fail> {
    let mut path = Vec::new(rt.alloc());
    put_outer(&mut path, 250)?;
    put_inner(&mut path, 250)?;
    let blocks = spiral_blocks(rt.alloc(), 250)?;
    assert!(rt; path.len() == 2_000 && blocks.len() == 999);
    assert!(rt; is_cut_into(rt.alloc(), path.as_slice(), blocks.as_slice())?);
    Ok(())
}

/// The middle of the corridor, from its start out.
fn middle(alloc: Global, rounds: u16) -> Result<Vec<Corner>, AllocError>
    ensures { IfOk result (λ path. AllByRecursion IsCornerInReach path.items) }
{
    let mut path = Vec::new(alloc);
    for round in 0..rounds {
        let out = 4 * i32::from(round);
        path.push(corner_in_reach(0 - out, 0 - out))?;
        path.push(corner_in_reach(out + 4, 0 - out))?;
        path.push(corner_in_reach(out + 4, out + 4))?;
        path.push(corner_in_reach(-4 - out, out + 4))?;
    }
    Ok(path)
}

/// All arms, from the start out.
fn arms_in_turn(alloc: Global, rounds: u16) -> Result<Vec<Block>, AllocError> {
    let mut blocks = Vec::new(alloc);
    for round in 0..rounds {
        blocks.extend_from_slice(&arms(round))?;
    }
    let _none = blocks.pop();
    Ok(blocks)
}

#[test]
fn a_wire_gives_the_arms_of_a_spiral(rt: HostRuntime) -> Result<(), Fail> {
    let path = middle(rt.alloc(), 250)?;
    let rects = strokes(rt.alloc(), path.as_slice(), 1)?;
    let blocks = arms_in_turn(rt.alloc(), 250)?;
    assert!(rt; path.len() == 1_000 && blocks.len() == 999);
    assert!(rt; are_at(rects.as_slice(), blocks.as_slice()));
    Ok(())
}

/// As far as the points of a wire and half its width may reach.
const FAR: i64 = 1_000_000_000_000_000;

#[test]
fn a_wire_as_far_as_it_may_reach(rt: HostRuntime) -> Result<(), Fail> {
    let path = [corner(FAR, -FAR), corner(FAR, FAR), corner(-FAR, FAR)];
    let rects = strokes(rt.alloc(), &path, FAR)?;
    let blocks = [
        Block {
            low: -2 * FAR,
            left: 0,
            high: 2 * FAR,
            right: 2 * FAR,
        },
        Block {
            low: 0,
            left: -2 * FAR,
            high: 2 * FAR,
            right: 2 * FAR,
        },
    ];
    assert!(rt; are_at(rects.as_slice(), &blocks));
    Ok(())
}
