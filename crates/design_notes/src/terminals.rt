//! The terminals of the PARENT by their names.

use crate::flows::is_output;
use std::alloc::{AllocError, Global};
use std::collections::BTreeMap;
use yal_reader::{Flow, Kind, Line, YalFile};

/// The terminals of a PARENT that are no power terminals, by name: whether one drives the net of its name from outside.
pub(crate) type Outside<'a> = BTreeMap<&'a [u8], bool>;

/// The lines of the first PARENT of a file.
pub(crate) fn parent_lines(file: &YalFile) -> &[Line] {
    for module in file.modules.items() {
        if matches!(module.kind, Kind::Parent) {
            return module.lines.items();
        }
    }
    &[]
}

/// Whether a line is one of power.
pub(crate) fn is_power(line: &Line) -> bool {
    matches!(line.flow, Flow::PWR | Flow::GND)
}

/// The terminals of lines by name. The one error is want of memory.
pub(crate) fn outside_of<'a>(alloc: Global, lines: &'a [Line]) -> Result<Outside<'a>, AllocError> {
    let mut outside = BTreeMap::new(alloc);
    for line in lines {
        if is_power(line) {
            continue;
        }
        outside.insert(line.name.items(), !is_output(line.flow))?;
    }
    Ok(outside)
}
