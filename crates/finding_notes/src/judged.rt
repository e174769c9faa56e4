//! A layout that was judged, and what numbers name in it.

use crate::untold::Untold;
use design_model::{CellKind, Design, Inst, Pin};
use geom_core::{Cell, Layout, Shape};
use tech_rules::Rules;

/// A layout that was judged for a design under rules: the name of its file, and the text of that file where it is there.
#[derive(Clone, Copy)]
pub struct JudgedLayout<'a> {
    pub cif_name: &'a str,
    pub text: Option<&'a [u8]>,
    pub design: &'a Design,
    pub rules: &'a Rules,
    pub layout: &'a Layout,
}

impl<'a> JudgedLayout<'a> {
    /// The kinds of the design.
    pub(crate) fn kinds(&self) -> &'a [CellKind] {
        let design = self.design;
        design.kinds.items()
    }

    /// The instances of the design.
    pub(crate) fn instances(&self) -> &'a [Inst] {
        let design = self.design;
        design.instances.items()
    }

    /// The pins of the design.
    pub(crate) fn pins(&self) -> &'a [Pin] {
        let design = self.design;
        design.pins.items()
    }

    /// The shape of this number.
    pub(crate) fn shape(&self, n: u32) -> Result<&'a Shape, Untold> {
        self.layout.shapes.items().get(n as usize).ok_or(Untold)
    }

    /// The cell of this number.
    pub(crate) fn cell(&self, n: u32) -> Result<&'a Cell, Untold> {
        self.layout.cells.items().get(n as usize).ok_or(Untold)
    }

    /// The instance of this number.
    pub(crate) fn instance(&self, n: u32) -> Result<&'a Inst, Untold> {
        self.instances().get(n as usize).ok_or(Untold)
    }

    /// The kind of an instance.
    pub(crate) fn kind(&self, instance: &Inst) -> Result<&'a CellKind, Untold> {
        self.kinds().get(instance.kind as usize).ok_or(Untold)
    }

    /// The pin of this number.
    pub(crate) fn pin(&self, n: u32) -> Result<Pin, Untold> {
        self.pins().get(n as usize).copied().ok_or(Untold)
    }

    /// The signal of the net of this number, from 1.
    pub(crate) fn signal(&self, net: u32) -> Result<&'a [u8], Untold> {
        let design = self.design;
        match design.nets.items().get((net as usize).wrapping_sub(1)) {
            Some(name) => Ok(name.items()),
            None => Err(Untold),
        }
    }
}
