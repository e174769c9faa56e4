//! The width, the height and the number of columns that a layout is within, whatever its routing.

/// The size that a layout is within, whatever its routing: its width and height in centimicrons, and the columns of all its channels together.
#[derive(Clone, Copy, Debug, PartialEq, Eq)]
pub struct Bound {
    pub width: u64,
    pub height: u64,
    pub grid: u64,
}
