//! The tries of a job, of which the first of least estimate is taken.

ghost use Rattle.anneal_int.specs.Annealed.{all_changes};
ghost use Rattle.command_jobs.specs.Placed.{IsPlacedAs};
ghost use Rattle.command_jobs.specs.Rows.{schedule_of};
ghost use Rattle.command_jobs.specs.Tries.{estimate_for, job_of, try_of};
ghost use Rattle.limits.specs.declared.TheConstants.{MOST_CHANGES};
ghost use Rattle.placement_tries.specs.Taking.{is_less};
ghost use Rattle.port_rows.specs.Designs.{placed_in};
ghost use Rattle.port_rows.specs.PortRows.{HoldCells};
ghost use Rattle.row_model.specs.Rows.{ArePlaced};
ghost use Rattle.row_model.specs.declared.rows.Seat.{Seat};
ghost use Rattle.std.specs.Prelude.{◌≡◌, ◌≤◌, List, if◌then◌else◌, length, IfOk};

use crate::placing::{Placed, placed_as};
use crate::try_watch::TryWatch;
use command_words::Wanted;
use limits::MOST_ROWS;
use placement_tries::{estimate, is_less};
use port_rows::Designs;
use progress::Watch;
use std::alloc::{AllocError, Global};
use tech_rules::Rules;

// A placement with its estimate.
#[derive(Drop)]
struct Tried {
    placed: Placed,
    estimate: Option<u128>,
}

// The placement of the try of this number, with its estimate. One that watches is told of the stages, as of those of all tries.
#[tactic(auto, unfolding(crate::specs::Tries::estimate_for))]
fn try_placed<W: Watch>(
    alloc: Global,
    designs: &Designs,
    rules: &Rules,
    wanted: &Wanted,
    number: u32,
    watch: &mut W,
) -> Result<Tried, AllocError>
    requires hold { (rows : List (List Seat)) → ArePlaced (placed_in designs.now) rows → length rows ≤ MOST_ROWS → HoldCells designs.now.drawn rows }
    requires changes { all_changes (placed_in designs.now) (schedule_of rules.now) ≤ MOST_CHANGES }
    ensures placed { IfOk result (λ t. IsPlacedAs (try_of rules.now designs.now wanted.now number) t.placed) }
    ensures estimate { IfOk result (λ t. t.estimate ≡ estimate_for (try_of rules.now designs.now wanted.now number)) }
    ensures goes { W.goes watch.old watch.new }
{
    let mut staged = TryWatch::new(watch, number, wanted.tries.get());
    let placed = placed_as(alloc, designs, rules, wanted, number, &mut staged)?;
    let drawn = &designs.drawn.design;
    let estimate = estimate(alloc, drawn, rules, &placed.fed, &placed.placement)?;
    Ok(Tried { placed, estimate })
}

// The other of two tries where its estimate is less than that of the one, and else the one. The one that is not taken is given up.
fn better(one: Tried, other: Tried) -> Tried
    ensures { result ≡ (if is_less other.estimate one.estimate then other else one) }
{
    if is_less(other.estimate, one.estimate) {
        other
    } else {
        one
    }
}

// The placement of the first try of least estimate. Of several tries two placements are held at most.
fn best_of<W: Watch>(
    alloc: Global,
    designs: &Designs,
    rules: &Rules,
    wanted: &Wanted,
    watch: &mut W,
) -> Result<Placed, AllocError>
    requires hold { (rows : List (List Seat)) → ArePlaced (placed_in designs.now) rows → length rows ≤ MOST_ROWS → HoldCells designs.now.drawn rows }
    requires changes { all_changes (placed_in designs.now) (schedule_of rules.now) ≤ MOST_CHANGES }
    ensures placed { IfOk result (IsPlacedAs (job_of rules.now designs.now wanted.now)) }
    ensures goes { W.goes watch.old watch.new }
{
    let tries = wanted.tries.get();
    let mut best = try_placed(alloc, designs, rules, wanted, 0, watch)?;
    for number in 1..tries {
        let other = try_placed(alloc, designs, rules, wanted, number, watch)?;
        best = better(best, other);
    }
    Ok(best.placed)
}

/// The placement of a job: that of its first try of least estimate. The one error is want of memory. Where there is one try alone nothing is estimated. One that watches is told of the stages of
/// annealing.
pub(crate) fn job_placed<W: Watch>(
    alloc: Global,
    designs: &Designs,
    rules: &Rules,
    wanted: &Wanted,
    watch: &mut W,
) -> Result<Placed, AllocError>
    requires hold { (rows : List (List Seat)) → ArePlaced (placed_in designs.now) rows → length rows ≤ MOST_ROWS → HoldCells designs.now.drawn rows }
    requires changes { all_changes (placed_in designs.now) (schedule_of rules.now) ≤ MOST_CHANGES }
    ensures placed { IfOk result (IsPlacedAs (job_of rules.now designs.now wanted.now)) }
    ensures goes { W.goes watch.old watch.new }
{
    if wanted.tries.get() == 1 {
        return placed_as(alloc, designs, rules, wanted, 0, watch);
    }
    best_of(alloc, designs, rules, wanted, watch)
}
