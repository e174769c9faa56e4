//! Rectangles that are merged, with answers told by hand.

use geom_core::Rect;
use region_cut::merge;
use std::alloc::{AllocError, Global};
use std::test::Fail;

/// Of a rectangle its left, lower, right and upper side.
type Sides = (i32, i32, i32, i32);

/// Rectangles, how much work their merging may take, and the answer.
struct Row {
    rects: &'static [Sides],
    work: u64,
    answer: &'static str,
}

/// The two strips of an L, which are 2 strips of 2 columns.
const ELL: &[Sides] = &[(0, 0, 20, 8), (0, 8, 8, 20)];

const ROWS: [Row; 15] = [
    Row {
        rects: ELL,
        work: 1_000,
        answer: "0 0 20 8 / 0 0 8 20",
    },
    // just as much work as is allowed, and one more
    Row {
        rects: ELL,
        work: 8,
        answer: "0 0 20 8 / 0 0 8 20",
    },
    Row {
        rects: ELL,
        work: 7,
        answer: "0 0 20 8 / 0 8 8 20",
    },
    // a wire with a pad at its end, cut into three strips
    Row {
        rects: &[(20, 0, 32, 4), (0, 4, 32, 8), (20, 8, 32, 12)],
        work: 1_000,
        answer: "20 0 32 12 / 0 4 32 8",
    },
    // two that overlap
    Row {
        rects: &[(0, 0, 10, 10), (5, 5, 15, 15)],
        work: 1_000,
        answer: "0 0 10 10 / 5 0 10 15 / 0 5 15 10 / 5 5 15 15",
    },
    // one three times, one in another, and two side by side
    Row {
        rects: &[(1, 2, 3, 4), (1, 2, 3, 4), (1, 2, 3, 4)],
        work: 1_000,
        answer: "1 2 3 4",
    },
    Row {
        rects: &[(2, 2, 4, 4), (0, 0, 10, 10)],
        work: 1_000,
        answer: "0 0 10 10",
    },
    Row {
        rects: &[(-5, -5, 0, 0), (0, -5, 5, 0)],
        work: 1_000,
        answer: "-5 -5 5 0",
    },
    // two apart, two that touch at a corner, and two that touch along a part of a side
    Row {
        rects: &[(10, 0, 14, 4), (0, 0, 4, 4)],
        work: 1_000,
        answer: "0 0 4 4 / 10 0 14 4",
    },
    Row {
        rects: &[(0, 0, 4, 4), (4, 4, 8, 8)],
        work: 1_000,
        answer: "0 0 4 4 / 4 4 8 8",
    },
    Row {
        rects: &[(0, 0, 4, 4), (4, 2, 8, 6)],
        work: 1_000,
        answer: "0 0 4 4 / 0 2 8 4 / 4 2 8 6",
    },
    // a ring
    Row {
        rects: &[(0, 0, 12, 4), (0, 8, 12, 12), (0, 4, 4, 8), (8, 4, 12, 8)],
        work: 1_000,
        answer: "0 0 12 4 / 0 0 4 12 / 8 0 12 12 / 0 8 12 12",
    },
    // stairs of three steps have twice as many blocks, and stairs of four have more
    Row {
        rects: &[(0, 0, 3, 1), (1, 1, 4, 2), (2, 2, 5, 3)],
        work: 1_000,
        answer: "0 0 3 1 / 1 0 3 2 / 2 0 3 3 / 1 1 4 2 / 2 1 4 3 / 2 2 5 3",
    },
    Row {
        rects: &[(3, 3, 7, 4), (0, 0, 4, 1), (1, 1, 5, 2), (2, 2, 6, 3)],
        work: 1_000,
        answer: "3 3 7 4 / 0 0 4 1 / 1 1 5 2 / 2 2 6 3",
    },
    Row {
        rects: &[],
        work: 0,
        answer: "",
    },
];

/// The rectangles with these sides.
fn rects(alloc: Global, all: &[Sides]) -> Result<Vec<Rect>, AllocError> {
    let mut rects = Vec::new(alloc);
    for (x0, y0, x1, y1) in all.iter() {
        let (left, low, right, high) = (
            i64::from(*x0),
            i64::from(*y0),
            i64::from(*x1),
            i64::from(*y1),
        );
        if left < right && low < high {
            rects.push(Rect {
                x0: left,
                y0: low,
                x1: right,
                y1: high,
            })?;
        }
    }
    Ok(rects)
}

/// Rectangles as a text.
fn shown(alloc: Global, rects: &[Rect]) -> Result<String, AllocError> {
    let mut text = String::new(alloc);
    for (i, rect) in rects.iter().enumerate() {
        if i > 0 {
            text.push_str(" / ")?;
        }
        write!(text, "{} {} {} {}", rect.x0, rect.y0, rect.x1, rect.y1)?;
    }
    Ok(text)
}

#[test]
fn rectangles_are_merged(rt: HostRuntime) -> Result<(), Fail> {
    for row in ROWS.iter() {
        let rects = rects(rt.alloc(), row.rects)?;
        let merged = merge(rt.alloc(), rects.as_slice(), row.work)?;
        let found = shown(rt.alloc(), merged.as_slice())?;
        assert!(rt; found.as_str() == row.answer, "{found}, not {}", row.answer);
    }
    Ok(())
}
