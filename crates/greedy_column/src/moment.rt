//! What all steps of one column share: the allocator, the chooser, the nets' next pins, the column and the manner.

use crate::ahead::Ahead;
use choose_core::Manner;
use std::alloc::Global;

// What all steps of a column share: the allocator, what chooses, where the nets have their next pins, the column and the manner.
#[derive_where(Clone, Copy)]
pub(crate) struct Moment<'a, C> {
    pub(crate) alloc: Global,
    pub(crate) chooser: &'a C,
    pub(crate) ahead: &'a Ahead,
    pub(crate) column: u32,
    pub(crate) manner: Manner,
}
