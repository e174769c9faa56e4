//! Styles, and the routed channels that are kept.

ghost use Rattle.choose_core.specs.Answers.{IsAsked};
ghost use Rattle.std.specs.Prelude.{◌<◌, length};

use crate::support::{ended, named_style, shelf_of, words};
use choose_core::{Candidate, Choice, Style};
use commands::{Ended, run};
use greedy_router::{By, Routed};
use samples::{BUFFER, CELLS, INVERTER, RULES};
use shelf_io::MemSink;
use std::alloc::{AllocError, Global};
use std::cell::Cell;
use std::rc::Rc;
use std::test::Fail;

/// Two crossed nets in two rows: the channel between them has bottom 1, 2 and top 2, 1.
const CROSSED: &str = "u1 BUF b;\nu2 BUF a;\nu3 INV a;\nu4 INV b;\n";

/// How words end over a shelf with these modules and calls under the sample rules.
fn ended_with(alloc: Global, text: &str, modules: &str, calls: &str) -> Result<Ended, AllocError> {
    let mut shelf = shelf_of(alloc, RULES, modules, calls)?;
    let mut out = MemSink::new(alloc)?;
    ended(alloc, text, &mut shelf, &mut out)
}

/// Whether a channel is routed by the sweep, with so many tracks and columns.
fn is_greedy(kept: &[Routed], channel: usize, tracks: u32, columns: u32) -> bool {
    match kept.get(channel) {
        Some(routed) => routed.by == By::Greedy
            && routed.wiring.tracks == tracks
            && routed.wiring.columns == columns
            && routed.sweep.columns.len() == columns as usize,
        None => false,
    }
}

#[test]
fn channels_are_kept(rt: HostRuntime) -> Result<(), Fail> {
    let crossed = ended_with(rt.alloc(), "route|d|r|o|--rows|2", CELLS, CROSSED)?;
    assert_eq!(rt; crossed.status, 0);
    assert_eq!(rt; crossed.kept.len(), 3);
    assert!(rt; is_greedy(crossed.kept.as_slice(), 0, 0, 2));
    assert!(rt; is_greedy(crossed.kept.as_slice(), 1, 3, 3));
    assert!(rt; is_greedy(crossed.kept.as_slice(), 2, 0, 2));
    Ok(())
}

/// Two joined cells have one track.
#[test]
fn a_channel_of_two_joined_cells(rt: HostRuntime) -> Result<(), Fail> {
    let joined = ended_with(
        rt.alloc(),
        "route|d|r|o",
        BUFFER,
        "u1 BUF n1;\nu2 BUF n1;\n",
    )?;
    assert!(rt; is_greedy(joined.kept.as_slice(), 1, 1, 2));
    Ok(())
}

#[test]
fn no_channels_are_kept_of_what_is_refused(rt: HostRuntime) -> Result<(), Fail> {
    let none = ended_with(rt.alloc(), "route|d|r|o|--style|none", CELLS, CROSSED)?;
    assert!(rt; none.status == 2 && none.kept.is_empty());
    let refused = ended_with(rt.alloc(), "route|d|r|o", INVERTER, "u1 INV;\n")?;
    assert!(rt; refused.status == 5 && refused.kept.is_empty());
    Ok(())
}

/// A channel is kept where its text could not be written.
#[test]
fn channels_are_kept_of_what_is_not_written(rt: HostRuntime) -> Result<(), Fail> {
    let mut shelf = shelf_of(rt.alloc(), RULES, CELLS, CROSSED)?;
    shelf.fail_at(4)?;
    let mut out = MemSink::new(rt.alloc())?;
    let failed = ended(rt.alloc(), "route|d|r|o|--rows|2", &mut shelf, &mut out)?;
    assert!(rt; failed.status == 9 && failed.kept.len() == 3);
    assert!(rt; shelf.get("o").is_none());
    Ok(())
}

/// Words that name each style.
const STYLED: [&str; 3] = [
    "route|d|r|o|--rows|2|--style|near",
    "route|d|r|o|--rows|2|--style|lean",
    "route|d|r|o|--rows|2|--style|high",
];

#[test]
fn each_style_routes(rt: HostRuntime) -> Result<(), Fail> {
    for text in &STYLED {
        let done = ended_with(rt.alloc(), text, CELLS, CROSSED)?;
        assert!(rt; done.status == 0 && done.kept.len() == 3, "{text}");
    }
    Ok(())
}

/// The status with which these words end over the crossed nets with this one style.
fn ended_by(alloc: Global, text: &str, style: Style) -> Result<u8, AllocError> {
    let mut shelf = shelf_of(alloc, RULES, CELLS, CROSSED)?;
    let mut out = MemSink::new(alloc)?;
    let words = words(alloc, text)?;
    Ok(
        run(
            alloc,
            words.as_slice(),
            &mut shelf,
            &mut out,
            &mut MemSink::new(alloc)?,
            &[style],
        )
        .status,
    )
}

/// How `route d r o --rows 2` ends over the crossed nets, with a chooser of the first candidate that counts how often it is asked.
fn ended_by_counting(alloc: Global, calls: Rc<Cell<u32>>) -> Result<u8, AllocError> {
    let choice: Choice = Box::new(
        alloc,
        move |list: &[Candidate]| -> usize
            requires { IsAsked list.now }
            ensures { result < length list.entry.now }
        {
            calls.set(calls.get().saturating_add(1));
            0
        },
    )?;
    let style = named_style(alloc, "counting", choice)?;
    ended_by(alloc, "route|d|r|o|--rows|2|--style|counting", style)
}

#[test]
fn a_choice_may_have_a_state(rt: HostRuntime) -> Result<(), Fail> {
    let calls = Rc::new(rt.alloc(), Cell::new(0))?;
    let status = ended_by_counting(rt.alloc(), calls.clone()?)?;
    assert!(rt; status == 0 && calls.get() > 0);
    Ok(())
}
