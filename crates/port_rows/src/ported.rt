//! A design with an instance for each port of its PARENT.

use design_model::Design;

/// A design with an instance for each port of its PARENT, behind all others: first those of the lower edge, then those of the upper.
#[derive(Debug, Drop)]
pub struct Ported {
    pub design: Design,
    /// How many ports stand at the lower edge.
    pub south: u32,
    /// How many ports stand at the upper edge.
    pub north: u32,
}
