//! Choosers of the styles, and plans.

ghost use Rattle.choose_core.specs.Answers.{IsAsked};
ghost use Rattle.std.specs.Prelude.{◌<◌, length};

use choose_core::{Candidate, Choice, Chooser, Manner, Plan, Style};
use geom_core::{Items, Name};
use std::alloc::Global;
use std::test::Fail;
use stock_styles::Stock;

/// The chooser of a style in stock.
pub(crate) fn chooser_of(alloc: Global, stock: Stock) -> Result<Chooser, Fail> {
    let choice: Choice = Box::new(
        alloc,
        move |list: &[Candidate]| -> usize
            requires { IsAsked list.now }
            ensures { result < length list.entry.now }
        { stock.choose(list) },
    )?;
    Ok(Chooser::new(Name::new(stock.name().to_vec(alloc)?), choice))
}

/// A style in stock, with its sweeps.
pub(crate) fn style_of(alloc: Global, stock: Stock) -> Result<Style, Fail> {
    Ok(Style {
        chooser: chooser_of(alloc, stock)?,
        plan: stock.plan(alloc)?,
    })
}

/// The style `near`, which tries sweeps of these shares in the published manner.
pub(crate) fn near_style(alloc: Global, first: u32, others: &[u32]) -> Result<Style, Fail> {
    Ok(Style {
        chooser: chooser_of(alloc, Stock::Near)?,
        plan: Plan {
            manner: Manner::Published,
            first,
            others: Items::new(others.to_vec(alloc)?),
        },
    })
}
