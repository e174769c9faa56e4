//! Annealed rows of made designs, against the costs of independent programs.

ghost use Rattle.std.specs.Prelude.{◌<◌};

use crate::made::{first_rows, made_design};
use crate::schedules::{are_same, schedule_of, weights};
use anneal_int::{AnnealFault, anneal};
use row_board::cost;
use samples::{CELLS, designed};
use std::alloc::Global;
use std::test::Fail;

/// A made design with rows, a schedule and a seed, and what its rows cost before and after annealing.
struct Annealed {
    made: u64,
    cells: u32,
    rows: u32,
    temperature: u64,
    stages: u64,
    moves: u64,
    seed: u64,
    before: u64,
    after: u64,
}

const SMALL: [Annealed; 4] = [
    Annealed {
        made: 7,
        cells: 60,
        rows: 3,
        temperature: 30,
        stages: 20,
        moves: 4,
        seed: 7,
        before: 2491,
        after: 1728,
    },
    Annealed {
        made: 7,
        cells: 60,
        rows: 3,
        temperature: 1000,
        stages: 20,
        moves: 4,
        seed: 7,
        before: 2491,
        after: 2491,
    },
    Annealed {
        made: 7,
        cells: 60,
        rows: 14,
        temperature: 30,
        stages: 20,
        moves: 4,
        seed: 7,
        before: 1999,
        after: 1547,
    },
    Annealed {
        made: 7,
        cells: 60,
        rows: 14,
        temperature: 1000,
        stages: 20,
        moves: 4,
        seed: 7,
        before: 1999,
        after: 1999,
    },
];

const LARGE: Annealed = Annealed {
    made: 1,
    cells: 20000,
    rows: 512,
    temperature: 30,
    stages: 5,
    moves: 10,
    seed: 1,
    before: 18669865,
    after: 14364077,
};

const LARGE_AND_HOT: Annealed = Annealed {
    made: 1,
    cells: 20000,
    rows: 512,
    temperature: 1000,
    stages: 5,
    moves: 10,
    seed: 1,
    before: 18669865,
    after: 18669865,
};

/// Whether the rows of a case cost what they should, and are the same after annealing exactly where the cost is.
fn is_annealed(alloc: Global, case: &Annealed) -> Result<bool, Fail> {
    if case.cells == 0 || case.rows == 0 || case.rows > 512 {
        return Ok(false);
    }
    let schedule = schedule_of(case.temperature, case.stages, case.moves).ok_or("a schedule")?;
    let design = made_design(alloc, case.made, case.cells)?;
    let first = first_rows(alloc, &design, case.rows)?;
    let before = cost(alloc, &design, &first, weights())?;
    let made = anneal(
        alloc,
        &design,
        first_rows(alloc, &design, case.rows)?,
        &schedule,
        case.seed,
    )?;
    let after = cost(alloc, &design, &made.rows, weights())?;
    let costs = before == case.before
        && after == case.after
        && made.cost == case.after
        && made.first == case.before;
    Ok(costs && are_same(&made.rows, &first) == (before == after))
}

#[test]
fn small_rows_are_annealed(rt: HostRuntime) -> Result<(), Fail> {
    for case in &SMALL {
        assert!(rt; is_annealed(rt.alloc(), case)?);
    }
    Ok(())
}

#[test]
fn large_rows_are_annealed(rt: HostRuntime) -> Result<(), Fail> {
    assert!(rt; is_annealed(rt.alloc(), &LARGE)?);
    Ok(())
}

#[test]
fn rows_that_end_hot_are_as_at_first(rt: HostRuntime) -> Result<(), Fail> {
    assert!(rt; is_annealed(rt.alloc(), &LARGE_AND_HOT)?);
    Ok(())
}

/// Whether annealing these calls in one row, by a schedule and a seed, gives the rows at first.
fn is_as_at_first(
    alloc: Global,
    calls: &str,
    stages: u64,
    moves: u64,
    seed: u64,
) -> Result<bool, Fail> {
    let schedule = schedule_of(1000, stages, moves).ok_or("a schedule")?;
    let design = designed(alloc, CELLS, calls)?;
    let first = first_rows(alloc, &design, 1)?;
    let made = anneal(
        alloc,
        &design,
        first_rows(alloc, &design, 1)?,
        &schedule,
        seed,
    )?;
    Ok(are_same(&made.rows, &first))
}

#[test]
fn rows_without_a_change_stay(rt: HostRuntime) -> Result<(), Fail> {
    let two = "u1 BUF n; u2 INV n;";
    // Both changes of seed 42 exchange an instance with itself.
    assert!(rt; is_as_at_first(rt.alloc(), two, 1, 1, 42)?);
    assert!(rt; is_as_at_first(rt.alloc(), two, 0, 1000, 42)?);
    assert!(rt; is_as_at_first(rt.alloc(), two, 1000, 0, 42)?);
    assert!(rt; is_as_at_first(rt.alloc(), "", 1000, 1000, 42)?);
    Ok(())
}

/// The refusal of annealing a made design in one row in 1,000 stages of 1,000 moves, if it is refused.
fn refusal(alloc: Global, cells: u32) -> Result<Option<AnnealFault>, Fail>
    requires { 0 < cells }
{
    let schedule = schedule_of(1000, 1000, 1000).ok_or("a schedule")?;
    let design = made_design(alloc, 1, cells)?;
    let rows = first_rows(alloc, &design, 1)?;
    match anneal(alloc, &design, rows, &schedule, 1) {
        Ok(_) => Ok(None),
        Err(fault) => Ok(Some(fault)),
    }
}

#[test]
fn too_many_changes_are_refused(rt: HostRuntime) -> Result<(), Fail> {
    assert!(rt; refusal(rt.alloc(), 51)? == Some(AnnealFault::TooMuch(51_000_000)));
    Ok(())
}
