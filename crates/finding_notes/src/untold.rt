//! What cannot be told.

use std::alloc::{AllocError, AllocFailed};

/// Something cannot be told: memory is out, or a number names nothing.
#[derive(Clone, Copy, Debug, PartialEq, Eq)]
pub(crate) struct Untold;

impl From<AllocError> for Untold {
    fn from(_: AllocError) -> Self {
        Untold
    }
}

impl<T: Drop> From<AllocFailed<T>> for Untold {
    fn from(_: AllocFailed<T>) -> Self {
        Untold
    }
}
