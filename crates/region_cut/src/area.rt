//! Areas that are cut into blocks.

use geom_core::{Corner, Rect};

/// What a closed path encloses, or what rectangles cover together.
#[derive(Clone, Copy)]
pub(crate) enum Area<'a> {
    Path(&'a [Corner]),
    Rects(&'a [Rect]),
}
