//! The values that a rules file states, before the twelve rules are tried.
ghost use Rattle.std.specs.Prelude.{◌≡◌, ◌≢◌, not, IfOk, None, true};
ghost use Rattle.std.specs.Str.{bytes_eq};
ghost use Rattle.tech_rules.specs.Rules.{AreDifferent, ValidRules};
ghost use Rattle.tech_rules.specs.RulesOf.{are_different, broken_rule, values_in};
ghost use Rattle.toml.specs.View.{table_view};

use crate::document::{decimals, number, word};
use crate::sections::{
    Annealing, Cut, Grid, Outline, Wires, annealing_in, cut_in, grid_in, outline_in, wires_in,
};
use crate::{Key, Rules, RulesFault};
use geom_core::{LayerName, Name};
use std::alloc::{AllocError, Global};
use std::marker::Model;
use toml::Table;

/// One value for each key of a rules file, each in its range. `yal` is still the file's.
#[derive(Drop)]
pub(crate) struct Stated<'t> {
    version: u32,
    yal: &'t [u8],
    decimals: u32,
    grid: Grid,
    horizontal: Wires,
    vertical: Wires,
    cut: Cut,
    outline: Outline,
    annealing: Annealing,
}

impl<'t> Model for Stated<'t> {
    ghost use Rattle.tech_rules.specs.Rules.{RuleValues};

    ghost Value = { RuleValues };

    ghost use Rattle.tech_rules.specs.StatedView.{stated_values, AreInRanges};

    ghost view = { stated_values };

    ghost invariant = { AreInRanges };
}

/// The values of a rules file, or the fault of its first key that has one: Missing or Range. Takes no memory.
pub(crate) fn values_in(table: &Table) -> Result<Stated, RulesFault>
    ensures { result ≡ values_in (table_view table.now) }
{
    let version = number(table, Key::Version, 1, 2)?;
    Ok(Stated {
        version,
        yal: word(table, Key::Yal)?,
        decimals: decimals(table, version)?,
        grid: grid_in(table)?,
        horizontal: wires_in(
            table,
            Key::HorizontalLayer,
            Key::HorizontalWidth,
            Key::HorizontalSpace,
        )?,
        vertical: wires_in(
            table,
            Key::VerticalLayer,
            Key::VerticalWidth,
            Key::VerticalSpace,
        )?,
        cut: cut_in(table)?,
        outline: outline_in(table)?,
        annealing: annealing_in(table)?,
    })
}

impl<'t> Stated<'t> {
    /// The number of the first of the twelve rules that fails, 1 to 12. Takes no memory.
    #[tactic(auto, unfolding(crate::specs::RulesOf::broken_rule))]
    pub(crate) fn broken_rule(&self) -> Option<u8>
        ensures first { result ≡ broken_rule self.now }
        ensures valid { result ≡ None → ValidRules self.now }
    {
        let pad = self.cut.size + 2 * self.cut.enclose;
        if self.horizontal.width > pad {
            return Some(1);
        }
        if self.vertical.width > pad {
            return Some(2);
        }
        if pad + self.horizontal.space > self.grid.column {
            return Some(3);
        }
        if pad + self.vertical.space > self.grid.column {
            return Some(4);
        }
        if pad + self.horizontal.space > self.grid.track {
            return Some(5);
        }
        if pad + self.vertical.space > self.grid.track {
            return Some(6);
        }
        if self.cut.size + self.cut.space > self.grid.column {
            return Some(7);
        }
        if self.cut.size + self.cut.space > self.grid.track {
            return Some(8);
        }
        if self.grid.column % 2 != 0 {
            return Some(9);
        }
        if self.grid.centi % 4 != 0 {
            return Some(10);
        }
        if self.vertical.width > self.grid.pin {
            return Some(11);
        }
        if !self.layers_differ() {
            return Some(12);
        }
        None
    }

    fn layers_differ(&self) -> bool
        ensures test { result ≡ are_different self.now }
        ensures fact { result ≡ true → AreDifferent self.now }
    {
        differ(self.horizontal.layer, self.vertical.layer)
            && differ(self.horizontal.layer, self.cut.layer)
            && differ(self.horizontal.layer, self.outline.layer)
            && differ(self.vertical.layer, self.cut.layer)
            && differ(self.vertical.layer, self.outline.layer)
            && differ(self.cut.layer, self.outline.layer)
    }

    /// The rules of these values, which are valid. The one error is want of memory.
    pub(crate) fn rules(&self, alloc: Global) -> Result<Rules, AllocError>
        requires { ValidRules self.now }
        ensures { IfOk result (λ rules. rules ≡ self.now) }
    {
        Ok(Rules {
            version: self.version,
            yal: Name::new(self.yal.to_vec(alloc)?),
            decimals: self.decimals,
            grid: self.grid,
            horizontal: self.horizontal,
            vertical: self.vertical,
            cut: self.cut,
            outline: self.outline,
            annealing: self.annealing,
        })
    }
}

fn differ(a: LayerName, b: LayerName) -> bool
    ensures test { result ≡ not (bytes_eq a b) }
    ensures fact { result ≡ true → a ≢ b }
{
    a.text() != b.text()
}
