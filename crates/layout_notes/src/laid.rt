//! A layout that was made.

use design_model::Design;
use greedy_router::Routed;
use layout_report::Summary;
use tech_rules::Rules;

/// A layout that was made of a design under rules: the name of its file, the layout in short, its routed channels from the lowest up, how long its feeds are together, in units, and what
/// its rows cost before they were annealed.
#[derive(Clone, Copy)]
pub struct LaidLayout<'a> {
    pub out_name: &'a str,
    pub design: &'a Design,
    pub rules: &'a Rules,
    pub summary: &'a Summary,
    pub routed: &'a [Routed],
    pub feed_wire: u64,
    pub first_cost: u64,
}

impl<'a> LaidLayout<'a> {
    /// So many units in centimicrons.
    pub(crate) fn units(&self, units: u64) -> u64 {
        let rules = self.rules;
        units.saturating_mul(u64::from(rules.grid.centi))
    }

    /// So many columns in centimicrons.
    pub(crate) fn columns(&self, columns: u32) -> u64 {
        let rules = self.rules;
        self.units(u64::from(columns).saturating_mul(u64::from(rules.grid.column)))
    }

    /// So many tracks in centimicrons.
    pub(crate) fn tracks(&self, tracks: u32) -> u64 {
        let rules = self.rules;
        self.units(u64::from(tracks).saturating_mul(u64::from(rules.grid.track)))
    }

    /// How many nets the design has.
    pub(crate) fn net_count(&self) -> usize {
        let design = self.design;
        design.nets.items().len()
    }

    /// The signal of the net of this number, from 1.
    pub(crate) fn signal(&self, net: usize) -> &'a [u8] {
        let design = self.design;
        match design.nets.items().get(net.wrapping_sub(1)) {
            Some(name) => name.items(),
            None => b"",
        }
    }

    /// What the cells fill, in square centimicrons.
    pub(crate) fn filled(&self) -> u64 {
        let design = self.design;
        let kinds = design.kinds.items();
        let mut area: u64 = 0;
        for instance in design.instances.items() {
            if let Some(kind) = kinds.get(instance.kind as usize) {
                let high = self.units(u64::from(kind.height));
                area = area.saturating_add(self.columns(kind.columns).saturating_mul(high));
            }
        }
        area
    }
}
