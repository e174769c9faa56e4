//! The sections of a rules file, each with one value for each of its keys.
ghost use Rattle.std.specs.Prelude.{◌≡◌, IfOk};
ghost use Rattle.tech_rules.specs.Ranges.{IsAnnealingInRange, IsCutInRange, IsGridInRange, IsOutlineInRange, AreWiresInRange};
ghost use Rattle.tech_rules.specs.Sections.{annealing_in, cut_in, grid_in, outline_in, wires_in};
ghost use Rattle.toml.specs.View.{table_view};

use crate::document::{layer, number, start_by};
use crate::{Key, RulesFault};
use geom_core::LayerName;
use limits::{MOST_LENGTH, MOST_MOVES, MOST_STAGES, MOST_TEMPERATURE, MOST_WEIGHT};
use toml::Table;

/// How the rows that annealing begins with are filled: each up to the same width, or with the same number of instances.
#[derive(Clone, Copy, Debug, PartialEq, Eq)]
pub enum StartBy {
    Width,
    Count,
}

/// The grid of columns, tracks and units.
#[derive(Clone, Copy, Debug)]
pub struct Grid {
    /// The width of a column, 2 to 1,000, even.
    pub column: u32,
    /// The distance of two tracks, 2 to 1,000.
    pub track: u32,
    /// The centimicrons of a unit, 4 to 1,000, a multiple of 4.
    pub centi: u32,
    /// How far a cell's pin reaches inward from the cell's edge, 1 to 1,000.
    pub pin: u32,
}

/// The wires of one direction.
#[derive(Clone, Copy, Debug)]
pub struct Wires {
    /// Their layer.
    pub layer: LayerName,
    /// The least width of one, 1 to 1,000.
    pub width: u32,
    /// The least space of two, 1 to 1,000.
    pub space: u32,
}

/// The cuts, which join the two layers of wires.
#[derive(Clone, Copy, Debug)]
pub struct Cut {
    /// Their layer.
    pub layer: LayerName,
    /// The side of one, 1 to 1,000.
    pub size: u32,
    /// How far the wires of both layers reach beyond one, 0 to 1,000.
    pub enclose: u32,
    /// The least space of two, 1 to 1,000.
    pub space: u32,
}

/// The outlines of cells.
#[derive(Clone, Copy, Debug)]
pub struct Outline {
    /// Their layer.
    pub layer: LayerName,
}

/// How rows are annealed.
#[derive(Clone, Copy, Debug)]
pub struct Annealing {
    /// The temperature at which annealing begins, 1 to 1,000,000,000.
    pub temperature: u32,
    /// The stages of annealing, 0 to 1,000.
    pub stages: u32,
    /// The changes that a stage tries for each instance, 0 to 1,000.
    pub moves: u32,
    /// The cost of a net for each row that it spans beyond the first, 0 to 1,000.
    pub row_cost: u32,
    /// The cost of a column by which a row's width differs from the target, 0 to 1,000.
    pub length_cost: u32,
    /// How the rows that annealing begins with are filled: by width where the key is absent.
    pub start: StartBy,
}

// Each of these gives the values of a section, or the fault of its first key that has one: Missing or Range. None takes memory.

#[tactic(auto, unfolding(crate::specs::Sections::grid_in))]
pub(crate) fn grid_in(table: &Table) -> Result<Grid, RulesFault>
    ensures values { result ≡ grid_in (table_view table.now) }
    ensures ranges { IfOk result IsGridInRange }
{
    Ok(Grid {
        column: number(table, Key::GridColumn, 2, MOST_LENGTH)?,
        track: number(table, Key::GridTrack, 2, MOST_LENGTH)?,
        centi: number(table, Key::GridCenti, 4, MOST_LENGTH)?,
        pin: number(table, Key::GridPin, 1, MOST_LENGTH)?,
    })
}

// The keys of a direction are given: its layer's, and those of its least width and space.
#[tactic(auto, unfolding(crate::specs::Sections::wires_in))]
pub(crate) fn wires_in(
    table: &Table,
    named: Key,
    width: Key,
    space: Key,
) -> Result<Wires, RulesFault>
    ensures values { result ≡ wires_in (table_view table.now) named width space }
    ensures ranges { IfOk result AreWiresInRange }
{
    Ok(Wires {
        layer: layer(table, named)?,
        width: number(table, width, 1, MOST_LENGTH)?,
        space: number(table, space, 1, MOST_LENGTH)?,
    })
}

#[tactic(auto, unfolding(crate::specs::Sections::cut_in))]
pub(crate) fn cut_in(table: &Table) -> Result<Cut, RulesFault>
    ensures values { result ≡ cut_in (table_view table.now) }
    ensures ranges { IfOk result IsCutInRange }
{
    Ok(Cut {
        layer: layer(table, Key::CutLayer)?,
        size: number(table, Key::CutSize, 1, MOST_LENGTH)?,
        enclose: number(table, Key::CutEnclose, 0, MOST_LENGTH)?,
        space: number(table, Key::CutSpace, 1, MOST_LENGTH)?,
    })
}

#[tactic(auto, unfolding(crate::specs::Sections::outline_in))]
pub(crate) fn outline_in(table: &Table) -> Result<Outline, RulesFault>
    ensures values { result ≡ outline_in (table_view table.now) }
    ensures ranges { IfOk result IsOutlineInRange }
{
    Ok(Outline {
        layer: layer(table, Key::OutlineLayer)?,
    })
}

#[tactic(auto, unfolding(crate::specs::Sections::annealing_in))]
pub(crate) fn annealing_in(table: &Table) -> Result<Annealing, RulesFault>
    ensures values { result ≡ annealing_in (table_view table.now) }
    ensures ranges { IfOk result IsAnnealingInRange }
{
    Ok(Annealing {
        temperature: number(table, Key::AnnealTemperature, 1, MOST_TEMPERATURE)?,
        stages: number(table, Key::AnnealStages, 0, MOST_STAGES)?,
        moves: number(table, Key::AnnealMoves, 0, MOST_MOVES)?,
        row_cost: number(table, Key::AnnealRowCost, 0, MOST_WEIGHT)?,
        length_cost: number(table, Key::AnnealLengthCost, 0, MOST_WEIGHT)?,
        start: start_by(table)?,
    })
}
