//! How a sweep begins, and to how many tracks and further columns it may go.

use choose_core::Manner;

/// How a sweep begins: in which manner it takes its columns, and with how many free tracks, in hundredths of the channel's cut density and
/// never with more than two for each net.
#[derive(Clone, Copy, Debug, PartialEq, Eq)]
pub struct Start {
    pub manner: Manner,
    pub share: u32,
}

/// How far a sweep may go: to so many tracks, and to so many columns beyond the channel's.
#[derive(Clone, Copy, Debug, PartialEq, Eq)]
pub struct Limits {
    pub tracks: u32,
    pub extra: u32,
}
