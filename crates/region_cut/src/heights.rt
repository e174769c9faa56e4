//! The heights of a strip.

/// All heights from one line up to the next.
#[derive(Clone, Copy)]
pub(crate) struct Heights {
    pub(crate) low: i64,
    pub(crate) high: i64,
}
