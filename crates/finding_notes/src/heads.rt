//! The line of a finding, as it is printed for programs.

use crate::judged::JudgedLayout;
use crate::naming::{cell_text, instance_text, pin_text};
use crate::untold::Untold;
use layout_check::Finding;
use std::alloc::{AllocError, Global};

// A word and two numbers.
fn numbered(alloc: Global, word: &str, i: u32, j: u32) -> Result<String, AllocError> {
    format!(in alloc; "{word} {i} {j}")
}

// A word and a name.
fn named(alloc: Global, word: &str, name: &String) -> Result<String, AllocError> {
    let name = name.as_str();
    format!(in alloc; "{word} {name}")
}

// A word and two pins.
fn of_pins(
    alloc: Global,
    judged: &JudgedLayout<'_>,
    word: &str,
    p: u32,
    q: u32,
) -> Result<String, Untold> {
    let first = pin_text(alloc, judged, p)?;
    let second = pin_text(alloc, judged, q)?;
    Ok(format!(in alloc; "{word} {first} {second}")?)
}

/// The line of a finding without its line feed, with its names as people are shown them.
pub(crate) fn head_of(
    alloc: Global,
    judged: &JudgedLayout<'_>,
    finding: Finding,
) -> Result<String, Untold> {
    match finding {
        Finding::Missing(i) => Ok(named(alloc, "Missing", &instance_text(alloc, judged, i)?)?),
        Finding::Doubled(c, _) => Ok(named(alloc, "Doubled", &cell_text(alloc, judged, c)?)?),
        Finding::Strange(c) => Ok(named(alloc, "Strange", &cell_text(alloc, judged, c)?)?),
        Finding::Drawing(c) => Ok(named(alloc, "Drawing", &cell_text(alloc, judged, c)?)?),
        Finding::Overlap(i, j) => Ok(numbered(alloc, "Overlap", i, j)?),
        Finding::OutOfRow(i, j) => Ok(numbered(alloc, "OutOfRow", i, j)?),
        Finding::Narrow(i) => Ok(format!(in alloc; "Narrow {i}")?),
        Finding::Close(i, j) => Ok(numbered(alloc, "Close", i, j)?),
        Finding::BareCut(i) => Ok(format!(in alloc; "BareCut {i}")?),
        Finding::Opened(p, q) => of_pins(alloc, judged, "Open", p, q),
        Finding::Short(p, q) => of_pins(alloc, judged, "Short", p, q),
    }
}
