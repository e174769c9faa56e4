//! Five styles, `best`, `deft`, `near`, `lean` and `high`: the choice of each, and its sweeps.

use choose_core::{Candidate, Manner, Plan, deft, high, lean, near};
use geom_core::Items;
use std::alloc::{AllocError, Global};

/// A style that the program has.
#[derive(Clone, Copy, Debug, PartialEq, Eq)]
pub enum Stock {
    /// Chooses as `deft`, and tries four sweeps that look ahead: with as many free tracks as the cut density, with a tenth and a fifth
    /// more, and with none.
    Best,
    /// Chooses as `deft`, and tries one sweep that looks ahead, with as many free tracks as the cut density.
    Deft,
    /// Chooses as `near`, and tries one sweep as it was published, without free tracks.
    Near,
    /// Chooses as `lean`, and tries one sweep as it was published, without free tracks.
    Lean,
    /// Chooses as `high`, and tries one sweep as it was published, without free tracks.
    High,
}

impl Stock {
    ghost use Rattle.choose_core.specs.Answers.{IsAsked};
    ghost use Rattle.std.specs.Prelude.{◌≡◌, ◌<◌, IfOk, length};
    ghost use Rattle.stock_styles.specs.Stocks.{MayChoose, name_of, plan_of};

    /// All of them, in the order in which the program has them.
    pub const ALL: [Stock; 5] = [
        Stock::Best,
        Stock::Deft,
        Stock::Near,
        Stock::Lean,
        Stock::High,
    ];

    /// The name by which a command asks for it. Takes no memory.
    pub fn name(self) -> &'static [u8]
        ensures { result.now ≡ name_of self }
    {
        match self {
            Stock::Best => b"best",
            Stock::Deft => b"deft",
            Stock::Near => b"near",
            Stock::Lean => b"lean",
            Stock::High => b"high",
        }
    }

    /// Its answer to a list of candidates: the place of one of them, from 0 on. Takes no memory.
    pub fn choose(self, list: &[Candidate]) -> usize
        requires { IsAsked list.now }
        ensures chosen { MayChoose self list.now result }
        ensures within { result < length list.now }
    {
        match self {
            Stock::Best | Stock::Deft => deft(list),
            Stock::Near => near(list),
            Stock::Lean => lean(list),
            Stock::High => high(list),
        }
    }

    /// The sweeps that it tries. The one error is want of memory.
    pub fn plan(self, alloc: Global) -> Result<Plan, AllocError>
        ensures { IfOk result (λ plan. plan ≡ plan_of self) }
    {
        match self {
            Stock::Best => {
                let others = vec![in alloc; 110, 120, 0]?;
                Ok(Plan {
                    manner: Manner::LookingAhead,
                    first: 100,
                    others: Items::new(others),
                })
            }
            Stock::Deft => Ok(Plan::of_one(alloc, Manner::LookingAhead, 100)),
            Stock::Near | Stock::Lean | Stock::High => {
                Ok(Plan::of_one(alloc, Manner::Published, 0))
            }
        }
    }
}
