//! Choosers for the tests, and what a stored choice is.

ghost use Rattle.choose_core.specs.Answers.{IsAsked};
ghost use Rattle.std.specs.Prelude.{◌<◌, length};

use choose_core::{Ask, Candidate, Choice, Chooser, Next, deft};
use geom_core::Name;
use std::alloc::Global;
use std::cell::Cell;
use std::rc::Rc;
use std::test::Fail;

// The first candidate with the least gap.
fn nearest(list: &[Candidate]) -> usize
    requires { 0 < length list.now }
    ensures { result < length list.now }
{
    let mut best = 0;
    for place in 0..list.len() {
        if list[place].gap < list[best].gap {
            best = place;
        }
    }
    best
}

/// A chooser of the first candidate with the least gap.
pub(crate) fn nearest_chooser(alloc: Global) -> Result<Chooser, Fail> {
    let choice: Choice = Box::new(
        alloc,
        |list: &[Candidate]| -> usize
            requires { 0 < length list.now }
            ensures { result < length list.entry.now }
        { nearest(list) },
    )?;
    Ok(Chooser::new(Name::new(b"nearest".to_vec(alloc)?), choice))
}

/// A chooser of the last candidate.
pub(crate) fn last_chooser(alloc: Global) -> Result<Chooser, Fail> {
    let choice: Choice = Box::new(
        alloc,
        |list: &[Candidate]| -> usize
            requires { 0 < length list.now }
            ensures { result < length list.entry.now }
        { list.len() - 1 },
    )?;
    Ok(Chooser::new(Name::new(b"last".to_vec(alloc)?), choice))
}

/// The chooser `deft`.
pub(crate) fn deft_chooser(alloc: Global) -> Result<Chooser, Fail> {
    let choice: Choice = Box::new(
        alloc,
        |list: &[Candidate]| -> usize
            requires { IsAsked list.now }
            ensures { result < length list.entry.now }
        { deft(list) },
    )?;
    Ok(Chooser::new(Name::new(b"deft".to_vec(alloc)?), choice))
}

/// A chooser of the first candidate, which counts in a cell how often it is asked.
pub(crate) fn counting_chooser(alloc: Global, calls: Rc<Cell<u32>>) -> Result<Chooser, Fail> {
    let choice: Choice = Box::new(
        alloc,
        move |list: &[Candidate]| -> usize
            requires { 0 < length list.now }
            ensures { result < length list.entry.now }
        {
            calls.set(calls.get().saturating_add(1));
            0
        },
    )?;
    Ok(Chooser::new(Name::new(b"counting".to_vec(alloc)?), choice))
}

const NEAR: Candidate = Candidate {
    ask: Ask::Join,
    track: 4,
    gap: 1,
    next: Next::Both,
    pull: 0,
};

const FAR: Candidate = Candidate { gap: 3, ..NEAR };

#[test]
fn a_chooser_keeps_its_name_and_its_choice(rt: HostRuntime) -> Result<(), Fail> {
    let chooser = nearest_chooser(rt.alloc())?;
    assert_eq!(rt; chooser.name().items(), b"nearest".as_slice());
    assert_eq!(rt; chooser.pick(&[FAR, NEAR, NEAR]), 1);
    Ok(())
}

#[test]
fn another_chooser_has_another_choice(rt: HostRuntime) -> Result<(), Fail> {
    assert_eq!(rt; last_chooser(rt.alloc())?.pick(&[FAR, NEAR, NEAR]), 2);
    Ok(())
}
