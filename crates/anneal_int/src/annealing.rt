//! Simulated annealing of row placements.

ghost use Rattle.anneal_int.specs.Annealed.{all_changes, annealed, changed, end_of, judged, stage_changes};
ghost use Rattle.anneal_int.specs.Changes.{IsAmong};
ghost use Rattle.anneal_int.specs.Stages.{after_stage};
ghost use Rattle.row_board.specs.Cost.{cost_of};
ghost use Rattle.row_model.specs.Rows.{ArePlaced};
ghost use Rattle.std.specs.Bool.{OnFalse, OnTrue};
ghost use Rattle.std.specs.Prelude.{◌≡◌, ◌+◌, ◌<◌, ◌≤◌, ℕ, IfOk, length, nat_le};

use crate::draws::{Change, Draws, Proposal};
use crate::fault::AnnealFault;
use crate::schedule::Schedule;
use crate::temperature::Temperature;
use crate::thresholds::greatest_rise;
use design_model::Design;
use geom_core::Items;
use limits::MOST_CHANGES;
use progress::{Step, Unwatched, Watch};
use row_board::Spans;
use row_model::Rows;
use std::alloc::{AllocError, Global};

/// Rows, what they cost, and what those cost that they began with.
#[derive(Drop)]
pub struct CostedRows {
    pub rows: Rows,
    pub cost: u64,
    pub first: u64,
}

/// How many changes the annealing of a design has: for each stage and instance as many as the schedule has moves. Takes no memory.
#[tactic(auto, unfolding(crate::specs::Annealed::all_changes))]
pub fn changes(design: &Design, schedule: &Schedule) -> u64
    ensures is { result ≡ all_changes design.now schedule.now }
    ensures few { result ≤ 20000000000 }
{
    schedule.stages * stage_changes(design, schedule)
}

// How many changes a stage has.
fn stage_changes(design: &Design, schedule: &Schedule) -> u64
    ensures is { result ≡ stage_changes design.now schedule.now }
    ensures few { result ≤ 20000000 }
{
    schedule.moves * design.instances.items().len() as u64
}

/// The annealed rows of a design with their cost: each change of the seed is made where it is taken at the temperature of its stage, and the rows behind all changes stand where they
/// cost no more than those at first; else those. `TooMuch` exactly where there are more than 50,000,000 changes, with their number; all memory is taken before the first change.
/// After a refusal the rows are given up.
pub fn anneal(
    alloc: Global,
    design: &Design,
    start: Rows,
    schedule: &Schedule,
    seed: u64,
) -> Result<CostedRows, AnnealFault>
    requires { ArePlaced design.now start }
    ensures annealed { IfOk result (λ made. made.rows ≡ annealed design.now start schedule.now seed) }
    ensures placed { IfOk result (λ made. ArePlaced design.now made.rows) }
    ensures cost { IfOk result (λ made. made.cost ≡ cost_of design.now made.rows schedule.now.weights) }
    ensures first { IfOk result (λ made. made.first ≡ cost_of design.now start schedule.now.weights) }
    ensures no_dearer { IfOk result (λ made. cost_of design.now made.rows schedule.now.weights ≤ cost_of design.now start schedule.now.weights) }
    ensures much { MOST_CHANGES < all_changes design.now schedule.now → result ≡ Err (AnnealFault.TooMuch (all_changes design.now schedule.now)) }
    ensures few { (n : ℕ) → result ≡ Err (AnnealFault.TooMuch n) → (MOST_CHANGES < n) × (n ≡ all_changes design.now schedule.now) }
{
    anneal_watched(alloc, design, start, schedule, seed, &mut Unwatched)
}

/// The same, where one that watches is told of each stage when it is done.
pub fn anneal_watched<W: Watch>(
    alloc: Global,
    design: &Design,
    start: Rows,
    schedule: &Schedule,
    seed: u64,
    watch: &mut W,
) -> Result<CostedRows, AnnealFault>
    requires { ArePlaced design.now start }
    ensures annealed { IfOk result (λ made. made.rows ≡ annealed design.now start schedule.now seed) }
    ensures placed { IfOk result (λ made. ArePlaced design.now made.rows) }
    ensures cost { IfOk result (λ made. made.cost ≡ cost_of design.now made.rows schedule.now.weights) }
    ensures first { IfOk result (λ made. made.first ≡ cost_of design.now start schedule.now.weights) }
    ensures no_dearer { IfOk result (λ made. cost_of design.now made.rows schedule.now.weights ≤ cost_of design.now start schedule.now.weights) }
    ensures much { MOST_CHANGES < all_changes design.now schedule.now → result ≡ Err (AnnealFault.TooMuch (all_changes design.now schedule.now)) }
    ensures few { (n : ℕ) → result ≡ Err (AnnealFault.TooMuch n) → (MOST_CHANGES < n) × (n ≡ all_changes design.now schedule.now) }
    ensures goes { W.goes watch.old watch.new }
{
    let count = changes(design, schedule);
    if count > MOST_CHANGES {
        return Err(AnnealFault::TooMuch(count));
    }
    Ok(annealed(alloc, design, start, schedule, seed, watch)?)
}

// The same, of at most 50,000,000 changes.
#[tactic(auto, unfolding(crate::specs::Annealed::annealed))]
fn annealed<W: Watch>(
    alloc: Global,
    design: &Design,
    start: Rows,
    schedule: &Schedule,
    seed: u64,
    watch: &mut W,
) -> Result<CostedRows, AllocError>
    requires placed { ArePlaced design.now start }
    requires few { all_changes design.now schedule.now ≤ MOST_CHANGES }
    ensures annealed { IfOk result (λ made. made.rows ≡ annealed design.now start schedule.now seed) }
    ensures placed { IfOk result (λ made. ArePlaced design.now made.rows) }
    ensures cost { IfOk result (λ made. made.cost ≡ cost_of design.now made.rows schedule.now.weights) }
    ensures first { IfOk result (λ made. made.first ≡ cost_of design.now start schedule.now.weights) }
    ensures no_dearer { IfOk result (λ made. cost_of design.now made.rows schedule.now.weights ≤ cost_of design.now start schedule.now.weights) }
    ensures goes { W.goes watch.old watch.new }
{
    let kept = copy(alloc, &start)?;
    let mut spans = Spans::new(alloc, design, start, schedule.weights)?;
    let first = spans.cost();
    run(&mut spans, design, schedule, seed, watch);
    let cost = spans.cost();
    if cost <= first {
        Ok(CostedRows {
            rows: spans.end(),
            cost,
            first,
        })
    } else {
        Ok(CostedRows {
            rows: kept,
            cost: first,
            first,
        })
    }
}

// A copy of rows.
fn copy(alloc: Global, rows: &Rows) -> Result<Rows, AllocError>
    ensures { IfOk result (λ made. made ≡ rows.now) }
{
    let mut made = Vec::new(alloc);
    for row in rows.rows.items() {
        made.push(Items::new(row.items().to_vec(alloc)?))?;
    }
    Ok(Rows::new(Items::new(made)))
}

// Judges all changes of a schedule. Of each stage is told when it is done.
fn run<W: Watch>(spans: &mut Spans, design: &Design, schedule: &Schedule, seed: u64, watch: &mut W)
    requires design { spans.old.design ≡ design.now }
    requires weights { spans.old.weights ≡ schedule.now.weights }
    requires few { all_changes design.now schedule.now ≤ MOST_CHANGES }
    ensures rows { spans.new ≡ record spans.old { rows = end_of design.now spans.old.rows schedule.now seed } }
    ensures goes { W.goes watch.old watch.new }
{
    let instances = design.instances.items().len() as u32;
    let count = stage_changes(design, schedule);
    let mut draws = Draws::new(seed);
    let mut temperature = Temperature::first(schedule);
    let stages = schedule.stages;
    for stage in 0..stages {
        run_stage(spans, &mut draws, instances, temperature, count);
        temperature = temperature.cooler();
        watch.told(Step::Annealing, stage + 1, stages);
    }
}

// Judges so many changes at one temperature.
fn run_stage(
    spans: &mut Spans,
    draws: &mut Draws,
    instances: u32,
    temperature: Temperature,
    count: u64,
)
    requires instances { instances ≡ length spans.old.design.instances }
    requires some { 0 < count → 0 < instances }
    requires few { draws.old.number + count ≤ MOST_CHANGES }
    ensures rows { spans.new ≡ record spans.old { rows = after_stage spans.old.design spans.old.weights draws.old.seed temperature spans.old.rows draws.old.number count } }
    ensures number { draws.new.number ≡ draws.old.number + count }
    ensures seed { draws.new.seed ≡ draws.old.seed }
{
    for _n in 0..count {
        judge(spans, temperature, draws.next(instances));
    }
}

// Judges a change: it is made where it is taken at this temperature.
fn judge(spans: &mut Spans, temperature: Temperature, drawn: Proposal)
    requires { IsAmong (length spans.old.design.instances) drawn.change }
    ensures { spans.new ≡ record spans.old { rows = judged spans.old.design spans.old.weights temperature drawn.chance drawn.change spans.old.rows } }
{
    make_within(
        spans,
        drawn.change,
        greatest_rise(temperature, drawn.chance),
    );
}

// Makes a change exactly where the rows then cost at most so much more than before. Whether it was made.
fn make_within(spans: &mut Spans, change: Change, most: u64) -> bool
    requires among { IsAmong (length spans.old.design.instances) change }
    ensures is { result ≡ nat_le (cost_of spans.old.design (changed change spans.old.rows) spans.old.weights) (cost_of spans.old.design spans.old.rows spans.old.weights + most) }
    ensures done { OnTrue result (spans.new ≡ record spans.old { rows = changed change spans.old.rows }) }
    ensures left { OnFalse result (spans.new ≡ spans.old) }
{
    match change {
        Change::Mirror(a) => spans.mirror_within(a, most),
        Change::Swap(a, b) => spans.swap_within(a, b, most),
    }
}
