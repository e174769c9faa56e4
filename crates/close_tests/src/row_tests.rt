//! Three rectangles in a row, of which the first two touch.

ghost use Rattle.geom_core.specs.Reach.{IsExtentInWideReach};
ghost use Rattle.std.specs.Prelude.{◌<◌, ◌≤ℤ◌, ◌^◌, pos, length, All, IfOk};

use close_rects::{RectSet, Scan};
use geom_core::Rect;
use std::alloc::{AllocError, Global};
use std::test::Fail;

const FIRST: Rect = Rect {
    x0: 0,
    y0: 0,
    x1: 2,
    y1: 2,
};

const SECOND: Rect = Rect {
    x0: 2,
    y0: 0,
    x1: 4,
    y1: 2,
};

const THIRD: Rect = Rect {
    x0: 5,
    y0: 0,
    x1: 6,
    y1: 2,
};

// The pairs that are left, in ascending order.
fn pairs(alloc: Global, reach: i64) -> Result<Vec<(u32, u32)>, AllocError>
    requires low { pos 0 ≤ℤ reach }
    requires high { reach ≤ℤ pos 10 }
{
    let mut scan = Scan::new(alloc, &[FIRST, SECOND, THIRD], reach)?;
    let mut pairs = Vec::new(alloc);
    for _ in 0..4 {
        if let Some(pair) = scan.next() {
            pairs.push(pair)?;
        }
    }
    pairs.sort_unstable();
    Ok(pairs)
}

#[test]
fn inner_points_touching_and_near(rt: HostRuntime) -> Result<(), Fail> {
    assert_eq!(rt; pairs(rt.alloc(), 0)?.as_slice(), [].as_slice());
    assert_eq!(rt; pairs(rt.alloc(), 1)?.as_slice(), [(0, 1)].as_slice());
    assert_eq!(rt;
        pairs(rt.alloc(), 2)?.as_slice(),
        [(0, 1), (1, 2)].as_slice()
    );
    Ok(())
}

#[test]
fn touching_rectangles_are_taken(rt: HostRuntime) -> Result<(), Fail> {
    let corner = Rect {
        x0: 2,
        y0: 2,
        x1: 3,
        y1: 3,
    };
    let mut set = RectSet::new(rt.alloc(), &[FIRST, SECOND, THIRD])?;
    let one = set.take(&corner).ok_or("none")?;
    let other = set.take(&corner).ok_or("none")?;
    assert_eq!(rt; (one.min(other), one.max(other)), (0, 1));
    assert_eq!(rt; set.take(&corner), None);
    assert_eq!(rt; set.take(&THIRD), Some(2));
    assert_eq!(rt; set.take(&THIRD), None);
    Ok(())
}

#[test]
fn a_holder_reaches_round(rt: HostRuntime) -> Result<(), Fail> {
    let set = RectSet::new(rt.alloc(), &[FIRST, SECOND, THIRD])?;
    assert_eq!(rt; set.holder(&SECOND), Some(1));
    let within = Rect {
        x0: 0,
        y0: 1,
        x1: 1,
        y1: 2,
    };
    assert_eq!(rt; set.holder(&within), Some(0));
    let over = Rect {
        x0: 1,
        y0: 0,
        x1: 3,
        y1: 2,
    };
    assert_eq!(rt; set.holder(&over), None);
    Ok(())
}
