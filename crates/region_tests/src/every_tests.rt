//! Every closed path of up to eight corners on a grid of four by four points.

use crate::blocks::is_cut_into;
use crate::plain::{digit, plain_blocks};
use geom_core::Corner;
use region_cut::CutFault;
use std::alloc::Global;
use std::test::Fail;

fn corner(x: i64, y: i64) -> Corner {
    Corner { x, y }
}

/// The path of eight digits in the system of base 4, four x and four y in turn. Where neighbouring ones are equal it has fewer corners.
fn path_of(n: u32) -> [Corner; 8] {
    let (x0, y0) = (digit(n), digit(n / 4));
    let (x1, y1) = (digit(n / 16), digit(n / 64));
    let (x2, y2) = (digit(n / 256), digit(n / 1_024));
    let (x3, y3) = (digit(n / 4_096), digit(n / 16_384));
    [
        corner(x0, y0),
        corner(x1, y0),
        corner(x1, y1),
        corner(x2, y1),
        corner(x2, y2),
        corner(x3, y2),
        corner(x3, y3),
        corner(x0, y3),
    ]
}

/// Whether the path of this number is cut into what a plain count gives.
fn is_plain(alloc: Global, n: u32) -> Result<bool, CutFault> {
    let path = path_of(n);
    let blocks = plain_blocks(alloc, &path)?;
    is_cut_into(alloc, &path, blocks.as_slice())
}

#[test]
fn every_path_is_cut_into_its_maximal_blocks(rt: HostRuntime) -> Result<(), Fail> {
    for n in 0..65_536u32 {
        assert!(rt; is_plain(rt.alloc(), n)?, "{n}");
    }
    Ok(())
}
