//! What one that watches is told of annealing.

ghost use Rattle.std.specs.Prelude.{◌<◌};

use crate::made::{first_rows, made_design};
use crate::schedules::{are_same, schedule_of};
use anneal_int::{anneal, anneal_watched};
use progress::{Step, Watch};
use std::alloc::Global;
use std::test::Fail;

/// How many stages were told of, whether each as the one behind the last, and of how many in all, 0 where nothing was told.
#[derive(Drop)]
struct Told {
    stages: u64,
    all: u64,
    is_in_order: bool,
}

impl Watch for Told {
    ghost goes = { λ old new. Unit {0} };

    fn told(&mut self, step: Step, done: u64, all: u64) {
        self.stages = self.stages.wrapping_add(1);
        self.all = all;
        if step != Step::Annealing || done != self.stages {
            self.is_in_order = false;
        }
    }

    ghost goes_here = { λ x. tt };

    ghost goes_then = { λ x y z one two. tt };
}

/// Whether so many stages of annealing a made design of this many cells are told of one after another, and the rows are those of annealing that nothing watches.
fn are_told(alloc: Global, cells: u32, stages: u64) -> Result<bool, Fail>
    requires { 0 < cells }
{
    let schedule = schedule_of(10, stages, 4).ok_or("a schedule")?;
    let design = made_design(alloc, 7, cells)?;
    let mut told = Told {
        stages: 0,
        all: 0,
        is_in_order: true,
    };
    let rows = first_rows(alloc, &design, 3)?;
    let watched = anneal_watched(alloc, &design, rows, &schedule, 7, &mut told)?;
    let rows = first_rows(alloc, &design, 3)?;
    let made = anneal(alloc, &design, rows, &schedule, 7)?;
    let counted = told.is_in_order && told.stages == stages && told.all == stages;
    Ok(counted && are_same(&watched.rows, &made.rows))
}

#[test]
fn each_stage_is_told_of(rt: HostRuntime) -> Result<(), Fail> {
    assert!(rt; are_told(rt.alloc(), 60, 1)?);
    assert!(rt; are_told(rt.alloc(), 60, 20)?);
    assert!(rt; are_told(rt.alloc(), 20, 0)?);
    Ok(())
}
