//! The placement of a try: the rows that its design begins with, annealed, between those of its ports, and with feeds.

ghost use Rattle.anneal_int.specs.Annealed.{all_changes};
ghost use Rattle.command_jobs.specs.Placed.{IsPlacedAs};
ghost use Rattle.command_jobs.specs.Rows.{annealed_rows, rows_for, rows_of, schedule_of};
ghost use Rattle.command_jobs.specs.Summarized.{cost_for};
ghost use Rattle.command_jobs.specs.Tries.{try_of};
ghost use Rattle.limits.specs.declared.TheConstants.{MOST_CHANGES};
ghost use Rattle.port_rows.specs.Designs.{placed_in};
ghost use Rattle.port_rows.specs.PortRows.{HaveEdges, HoldCells};
ghost use Rattle.row_model.specs.Rows.{ArePlaced};
ghost use Rattle.row_model.specs.declared.rows.Seat.{Seat};
ghost use Rattle.std.specs.Prelude.{◌≡◌, ◌≤◌, List, length, IfOk};

use anneal_int::{AnnealFault, CostedRows, Schedule, anneal_watched};
use command_words::{RowCount, Wanted};
use design_model::Design;
use feed_cells::{FedRows, Placement, insert_feeds, place};
use limits::MOST_ROWS;
use placement_tries::{rows_at, seed_at};
use port_rows::{Designs, port_rows};
use progress::Watch;
use row_board::Weights;
use row_model::{default_rows, start};
use std::alloc::{AllocError, Global};
use tech_rules::Rules;

/// Annealed rows in short: how many the design was set in, the seed, and what they cost, and did before they were annealed.
#[derive(Clone, Copy)]
pub(crate) struct Annealed {
    pub rows: u32,
    pub seed: u64,
    pub cost: u64,
    pub first_cost: u64,
}

/// A placement: annealed rows in short, these with feeds, and where the pins and nets stand in them.
#[derive(Drop)]
pub(crate) struct Placed {
    pub annealed: Annealed,
    pub fed: FedRows,
    pub placement: Placement,
}

// The number of rows of a try of a design. The one error is want of memory.
fn rows_for(
    alloc: Global,
    design: &Design,
    rules: &Rules,
    asked: Option<RowCount>,
    number: u32,
) -> Result<u32, AllocError>
    ensures is { IfOk result (λ rows. rows ≡ rows_for rules.now design.now asked number) }
    ensures some { IfOk result (λ rows. 1 ≤ rows) }
    ensures few { IfOk result (λ rows. rows ≤ MOST_ROWS) }
{
    match asked {
        None => rows_at(alloc, default_rows(design, rules), number),
        Some(rows) => Ok(rows.get()),
    }
}

/// How rules have rows annealed. Takes no memory.
pub(crate) fn schedule_of(rules: &Rules) -> Schedule
    ensures { result ≡ schedule_of rules.now }
{
    Schedule {
        temperature: u64::from(rules.annealing.temperature),
        stages: u64::from(rules.annealing.stages),
        moves: u64::from(rules.annealing.moves),
        weights: Weights {
            row_cost: u64::from(rules.annealing.row_cost),
            length_cost: u64::from(rules.annealing.length_cost),
        },
    }
}

// The rows of the try of this number of the design that is placed, annealed, with their cost. One that watches is told of the stages.
#[tactic(auto, unfolding(crate::specs::Rows::annealed_rows, crate::specs::Summarized::cost_for))]
fn annealed_rows<W: Watch>(
    alloc: Global,
    designs: &Designs,
    rules: &Rules,
    wanted: &Wanted,
    number: u32,
    rows: u32,
    watch: &mut W,
) -> Result<CostedRows, AllocError>
    requires changes { all_changes (placed_in designs.now) (schedule_of rules.now) ≤ MOST_CHANGES }
    requires some { 1 ≤ rows }
    requires few { rows ≤ MOST_ROWS }
    requires rows { rows ≡ rows_for rules.now (placed_in designs.now) wanted.now.rows number }
    ensures are { IfOk result (λ made. made.rows ≡ annealed_rows (try_of rules.now designs.now wanted.now number)) }
    ensures placed { IfOk result (λ made. ArePlaced (placed_in designs.now) made.rows) }
    ensures few { IfOk result (λ made. length made.rows ≤ MOST_ROWS) }
    ensures cost { IfOk result (λ made. made.cost ≡ cost_for (try_of rules.now designs.now wanted.now number)) }
    ensures goes { W.goes watch.old watch.new }
{
    let placed = designs.placed();
    let first = start(alloc, placed, rows, rules.annealing.start)?;
    let schedule = schedule_of(rules);
    let seed = seed_at(wanted.seed, number);
    match anneal_watched(alloc, placed, first, &schedule, seed, watch) {
        Ok(made) => Ok(made),
        Err(AnnealFault::TooMuch(_)) => unreachable!(),
        Err(AnnealFault::Memory) => Err(AllocError),
    }
}

// The same between the rows of the ports. They cost what they do without these.
#[tactic(auto, unfolding(crate::specs::Rows::rows_of))]
fn job_rows<W: Watch>(
    alloc: Global,
    designs: &Designs,
    rules: &Rules,
    wanted: &Wanted,
    number: u32,
    rows: u32,
    watch: &mut W,
) -> Result<CostedRows, AllocError>
    requires hold { (rows : List (List Seat)) → ArePlaced (placed_in designs.now) rows → length rows ≤ MOST_ROWS → HoldCells designs.now.drawn rows }
    requires changes { all_changes (placed_in designs.now) (schedule_of rules.now) ≤ MOST_CHANGES }
    requires some { 1 ≤ rows }
    requires few { rows ≤ MOST_ROWS }
    requires rows { rows ≡ rows_for rules.now (placed_in designs.now) wanted.now.rows number }
    ensures are { IfOk result (λ made. made.rows ≡ rows_of (try_of rules.now designs.now wanted.now number)) }
    ensures placed { IfOk result (λ made. ArePlaced designs.now.drawn.design made.rows) }
    ensures edges { IfOk result (λ made. HaveEdges designs.now.drawn made.rows) }
    ensures cost { IfOk result (λ made. made.cost ≡ cost_for (try_of rules.now designs.now wanted.now number)) }
    ensures goes { W.goes watch.old watch.new }
{
    let CostedRows { rows, cost, first } = annealed_rows(
        alloc, designs, rules, wanted, number, rows, watch,
    )?;
    let rows = port_rows(alloc, &designs.drawn, &rows)?;
    Ok(CostedRows { rows, cost, first })
}

/// The placement of the try of this number. The one error is want of memory. One that watches is told of the stages of annealing.
pub(crate) fn placed_as<W: Watch>(
    alloc: Global,
    designs: &Designs,
    rules: &Rules,
    wanted: &Wanted,
    number: u32,
    watch: &mut W,
) -> Result<Placed, AllocError>
    requires hold { (rows : List (List Seat)) → ArePlaced (placed_in designs.now) rows → length rows ≤ MOST_ROWS → HoldCells designs.now.drawn rows }
    requires changes { all_changes (placed_in designs.now) (schedule_of rules.now) ≤ MOST_CHANGES }
    ensures placed { IfOk result (IsPlacedAs (try_of rules.now designs.now wanted.now number)) }
    ensures goes { W.goes watch.old watch.new }
{
    let count = rows_for(alloc, designs.placed(), rules, wanted.rows, number)?;
    let CostedRows { rows, cost, first } = job_rows(
        alloc, designs, rules, wanted, number, count, watch,
    )?;
    let drawn = &designs.drawn.design;
    let placement = place(alloc, drawn, &rows)?;
    let fed = insert_feeds(alloc, drawn, &rows, &placement)?;
    let annealed = Annealed {
        rows: count,
        seed: seed_at(wanted.seed, number),
        cost,
        first_cost: first,
    };
    Ok(Placed {
        annealed,
        fed,
        placement,
    })
}
