//! The corners of paths.

/// A point of a path, in the units of the path: a corner of a polygon, or a point that a wire leads through.
#[derive(Clone, Copy, Debug, PartialEq, Eq)]
pub struct Corner {
    pub x: i64,
    pub y: i64,
}
