//! Paths whose rectangles are told by hand.

ghost use Rattle.region_cut.specs.Strokes.{IsCornerInReach};
ghost use Rattle.std.specs.List.{AllByRecursion};
ghost use Rattle.std.specs.Prelude.{IfOk};

use geom_core::{Corner, Rect};
use region_cut::{CutFault, cut, strokes};
use std::alloc::{AllocError, Global};
use std::test::Fail;

/// What is asked of a path: its maximal blocks, if they are at most so many, or the rectangles of a wire that reaches 4 past it.
#[derive(Clone, Copy)]
enum Asked {
    Blocks(u64),
    Wire,
}

/// A path, what is asked of it, and the answer: of each rectangle its left, lower, right and upper side.
struct Row {
    path: &'static [(i32, i32)],
    asked: Asked,
    answer: &'static str,
}

const ELL: &[(i32, i32)] = &[(0, 0), (20, 0), (20, 8), (8, 8), (8, 20), (0, 20)];

const ROWS: [Row; 18] = [
    Row {
        path: ELL,
        asked: Asked::Blocks(2),
        answer: "0 0 20 8 / 0 0 8 20",
    },
    Row {
        path: ELL,
        asked: Asked::Blocks(1),
        answer: "TooMany",
    },
    Row {
        path: ELL,
        asked: Asked::Blocks(0),
        answer: "TooMany",
    },
    // a plus
    Row {
        path: &[
            (1, 0),
            (2, 0),
            (2, 1),
            (3, 1),
            (3, 2),
            (2, 2),
            (2, 3),
            (1, 3),
            (1, 2),
            (0, 2),
            (0, 1),
            (1, 1),
        ],
        asked: Asked::Blocks(9),
        answer: "1 0 2 3 / 0 1 3 2",
    },
    // a ring: the path goes in from the left side to the hole, round it, and back
    Row {
        path: &[
            (0, 0),
            (6, 0),
            (6, 6),
            (0, 6),
            (0, 2),
            (2, 2),
            (2, 4),
            (4, 4),
            (4, 2),
            (2, 2),
            (0, 2),
        ],
        asked: Asked::Blocks(4),
        answer: "0 0 6 2 / 0 0 2 6 / 4 0 6 6 / 0 4 6 6",
    },
    // the same ring by a way in from the lower side, the hole the other way round
    Row {
        path: &[
            (0, 0),
            (2, 0),
            (2, 2),
            (2, 4),
            (4, 4),
            (4, 2),
            (2, 2),
            (2, 0),
            (6, 0),
            (6, 6),
            (0, 6),
        ],
        asked: Asked::Blocks(4),
        answer: "0 0 6 2 / 0 0 2 6 / 4 0 6 6 / 0 4 6 6",
    },
    // a path that crosses itself, round a square that is left empty
    Row {
        path: &[
            (0, 0),
            (4, 0),
            (4, 4),
            (2, 4),
            (2, 2),
            (6, 2),
            (6, 6),
            (0, 6),
        ],
        asked: Asked::Blocks(9),
        answer: "0 0 4 2 / 0 0 2 6 / 4 2 6 6 / 0 4 6 6",
    },
    // two squares that meet at a corner
    Row {
        path: &[
            (0, 0),
            (2, 0),
            (2, 2),
            (4, 2),
            (4, 4),
            (2, 4),
            (2, 2),
            (0, 2),
        ],
        asked: Asked::Blocks(9),
        answer: "0 0 2 2 / 2 2 4 4",
    },
    // points on a side, points again, and a step back
    Row {
        path: &[
            (0, 0),
            (5, 0),
            (5, 0),
            (10, 0),
            (10, 10),
            (10, 3),
            (10, 10),
            (0, 10),
        ],
        asked: Asked::Blocks(1),
        answer: "0 0 10 10",
    },
    // no area: there and back, twice round a square, one point, none
    Row {
        path: &[(0, 0), (4, 0), (4, 5), (4, 0)],
        asked: Asked::Blocks(9),
        answer: "",
    },
    Row {
        path: &[
            (0, 0),
            (2, 0),
            (2, 2),
            (0, 2),
            (0, 0),
            (2, 0),
            (2, 2),
            (0, 2),
        ],
        asked: Asked::Blocks(9),
        answer: "",
    },
    Row {
        path: &[(1, 1)],
        asked: Asked::Blocks(0),
        answer: "",
    },
    Row {
        path: &[],
        asked: Asked::Blocks(0),
        answer: "",
    },
    // a wire that turns
    Row {
        path: &[(0, 0), (20, 0), (20, 20)],
        asked: Asked::Wire,
        answer: "-4 -4 24 4 / 16 -4 24 24",
    },
    // one that goes on
    Row {
        path: &[(0, 0), (10, 0), (30, 0)],
        asked: Asked::Wire,
        answer: "-4 -4 14 4 / 6 -4 34 4",
    },
    // a step without length, and one to the left
    Row {
        path: &[(5, 5), (5, 5), (1, 5)],
        asked: Asked::Wire,
        answer: "1 1 9 9 / -3 1 9 9",
    },
    Row {
        path: &[(10, 10)],
        asked: Asked::Wire,
        answer: "6 6 14 14",
    },
    Row {
        path: &[],
        asked: Asked::Wire,
        answer: "",
    },
];

pub(crate) fn corner_in_reach(x: i32, y: i32) -> Corner
    ensures { IsCornerInReach result }
{
    Corner {
        x: i64::from(x),
        y: i64::from(y),
    }
}

fn corners(alloc: Global, points: &[(i32, i32)]) -> Result<Vec<Corner>, AllocError>
    ensures { IfOk result (λ path. AllByRecursion IsCornerInReach path.items) }
{
    let mut path = Vec::new(alloc);
    let mut rest = points;
    while let Some(((x, y), later)) = rest.split_first() {
        path.push(corner_in_reach(*x, *y))?;
        rest = later;
    }
    Ok(path)
}

/// The answer to a row.
fn answer(alloc: Global, row: &Row) -> Result<Vec<Rect>, CutFault> {
    let path = corners(alloc, row.path)?;
    match row.asked {
        Asked::Blocks(most) => cut(alloc, path.as_slice(), most),
        Asked::Wire => Ok(strokes(alloc, path.as_slice(), 4)?),
    }
}

/// An answer as a text.
fn shown(alloc: Global, answer: &Result<Vec<Rect>, CutFault>) -> Result<String, AllocError> {
    let mut text = String::new(alloc);
    match answer {
        Ok(rects) => put_rects(&mut text, rects.as_slice())?,
        Err(CutFault::TooMany) => text.push_str("TooMany")?,
        Err(CutFault::Memory) => text.push_str("Memory")?,
    }
    Ok(text)
}

fn put_rects(text: &mut String, rects: &[Rect]) -> Result<(), AllocError> {
    for (i, rect) in rects.iter().enumerate() {
        if i > 0 {
            text.push_str(" / ")?;
        }
        write!(text, "{} {} {} {}", rect.x0, rect.y0, rect.x1, rect.y1)?;
    }
    Ok(())
}

#[test]
fn paths_give_their_rectangles(rt: HostRuntime) -> Result<(), Fail> {
    for row in ROWS.iter() {
        let answer = answer(rt.alloc(), row);
        let found = shown(rt.alloc(), &answer)?;
        assert!(rt; found.as_str() == row.answer, "{found}, not {}", row.answer);
    }
    Ok(())
}
