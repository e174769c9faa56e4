//! A rectangle on a layer of the mask, with the net that it belongs to.

use geom_core::Shape;

/// A rectangle on a layer of the mask, with the number of the net to which it belongs.
#[derive(Clone, Copy, Debug, PartialEq, Eq)]
pub struct Drawn {
    pub shape: Shape,
    pub net: u32,
}
