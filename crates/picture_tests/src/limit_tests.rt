//! How many shapes a picture shows.

use crate::drawn::{PLAIN, layer_of, rect_of};
use geom_core::{Items, Layout, Shape};
use layout_picture::{MOST_SHOWN, Picture, View};
use std::alloc::Global;
use std::test::Fail;

// A layout of so many squares of a micron in a row, two microns from left side to left side.
fn row_of(alloc: Global, count: u32) -> Result<Layout, Fail> {
    let layer = layer_of("NM")?;
    let mut shapes = Vec::new(alloc);
    for k in 0..count {
        let left = 400 * u64::from(k);
        let rect = rect_of([left as i64, 0, (left + 200) as i64, 200])?;
        shapes.push(Shape { layer, rect })?;
    }
    Ok(Layout {
        cells: Items::new(Vec::new(alloc)),
        shapes: Items::new(shapes),
    })
}

/// How many squares, the part that is shown, and how many shapes that are.
const COUNTS: [(u32, Option<[i64; 4]>, usize); 7] = [
    (0, None, 0),
    (1, None, 1),
    (10, Some([200, 200, 400, 201]), 2),
    (10, Some([201, 0, 399, 200]), 0),
    (10, Some([-5, -5, 3601, 1]), 10),
    (200_000, None, MOST_SHOWN),
    (200_001, None, MOST_SHOWN + 1),
];

#[test]
fn shapes_are_counted(rt: HostRuntime) -> Result<(), Fail> {
    for (count, sides, shown) in COUNTS {
        let layout = row_of(rt.alloc(), count)?;
        let part = match sides {
            Some(sides) => Some(rect_of(sides)?),
            None => None,
        };
        let picture = Picture::new(rt.alloc(), &layout, View { part, ..PLAIN })?;
        assert_eq!(rt; picture.shapes_shown(), shown, "{count}");
    }
    Ok(())
}
