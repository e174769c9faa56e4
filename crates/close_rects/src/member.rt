//! A rectangle with a class, and the distance at which it keeps those of other classes.

use geom_core::Rect;

/// A rectangle of a class, which keeps those of other classes at a distance: it is crowded by each of them of which both gaps
/// from it are below its reach, in half centimicrons. Its number is the caller's own.
#[derive(Clone, Copy, Debug, PartialEq, Eq)]
pub struct Member {
    pub number: u32,
    pub class: u32,
    pub rect: Rect,
    pub reach: i64,
}
