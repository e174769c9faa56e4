//! The names of instances, cells and pins, and names that differ in case alone.

use crate::judged::JudgedLayout;
use crate::lengths::shown;
use crate::untold::Untold;
use geom_core::Cell;
use std::alloc::Global;

/// The name of an instance.
pub(crate) fn instance_text(
    alloc: Global,
    judged: &JudgedLayout<'_>,
    n: u32,
) -> Result<String, Untold> {
    Ok(shown(alloc, judged.instance(n)?.name.items())?)
}

/// The name of a cell.
pub(crate) fn cell_text(
    alloc: Global,
    judged: &JudgedLayout<'_>,
    n: u32,
) -> Result<String, Untold> {
    Ok(shown(alloc, judged.cell(n)?.name.items())?)
}

/// A pin: the names of its instance and of its terminal.
pub(crate) fn pin_text(alloc: Global, judged: &JudgedLayout<'_>, n: u32) -> Result<String, Untold> {
    let pin = judged.pin(n)?;
    let instance = judged.instance(pin.instance)?;
    let terminals = judged.kind(instance)?.terminals.items();
    let terminal = terminals.get(pin.terminal as usize).ok_or(Untold)?;
    let instance = shown(alloc, instance.name.items())?;
    let terminal = shown(alloc, terminal.name.items())?;
    Ok(format!(in alloc; "{instance} {terminal}")?)
}

/// Whether two names differ in nothing but the case of letters.
fn are_alike(name: &[u8], other: &[u8]) -> bool {
    name.len() == other.len()
        && name
            .iter()
            .zip(other)
            .all(|(byte, one)| byte.eq_ignore_ascii_case(one))
}

/// The first cell whose name differs from this one in case alone.
pub(crate) fn cell_like<'a>(judged: &JudgedLayout<'a>, name: &[u8]) -> Option<&'a Cell> {
    for cell in judged.layout.cells.items() {
        if are_alike(cell.name.items(), name) {
            return Some(cell);
        }
    }
    None
}

/// The first instance's name that differs from this one in case alone.
pub(crate) fn instance_like<'a>(judged: &JudgedLayout<'a>, name: &[u8]) -> Option<&'a [u8]> {
    for instance in judged.instances() {
        if are_alike(instance.name.items(), name) {
            return Some(instance.name.items());
        }
    }
    None
}
