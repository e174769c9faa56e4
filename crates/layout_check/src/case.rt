//! What is judged: a layout of a design under rules.
ghost use Rattle.design_model.specs.Room.{HasRoom};
ghost use Rattle.layout_check.specs.Measured.{IsMeasured};
ghost use Rattle.std.specs.Prelude.{◌≡◌};

use design_model::Design;
use geom_core::{Layout, ShapesInReach};
use tech_rules::Rules;

/// A layout that is judged for a design under rules: its lengths are within reach, and the cells of the design have room for their pins.
#[derive(Clone, Copy)]
pub(crate) struct Case<'c> {
    pub(crate) layout: &'c Layout,
    pub(crate) design: &'c Design,
    pub(crate) rules: &'c Rules,
    ghost measured: { IsMeasured layout.now },
    ghost room: { HasRoom rules.now design.now },
}

impl<'c> Case<'c> {
    /// The shapes of the layout, as they can be judged. Takes no memory.
    pub(crate) fn shapes(&self) -> ShapesInReach<'_>
        ensures { result ≡ self.now.layout.now.shapes }
    {
        ShapesInReach::new(self.layout.shapes.items())
    }
}
