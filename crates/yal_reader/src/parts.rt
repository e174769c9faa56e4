//! The corners, lines and calls of a module, each there once its section has stood.

use crate::file::{Call, Line};
use geom_core::Items;

/// What the sections of a module gave so far; a section that has not stood yet is None.
#[derive(Debug, Drop)]
pub(crate) struct Parts {
    pub(crate) corners: Option<Items<i64>>,
    pub(crate) lines: Option<Items<Line>>,
    pub(crate) calls: Option<Items<Call>>,
}
