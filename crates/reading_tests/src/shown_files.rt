//! Files of YAL as words.

use std::alloc::{AllocError, Global};
use std::fmt::Debug;
use yal_reader::{Call, Line, Module, YalFile};

/// Puts a word and a blank at the end of a text.
fn put(text: &mut Vec<u8>, word: &[u8]) -> Result<(), AllocError> {
    text.extend_from_slice(word)?;
    text.push(b' ')?;
    Ok(())
}

/// Puts a value and a blank at the end of a text.
fn put_value<D: Debug>(alloc: Global, text: &mut Vec<u8>, value: &D) -> Result<(), AllocError> {
    put(text, format!(in alloc; "{value:?}")?.as_bytes())
}

/// Puts a line of a module at the end of a text, with a comma behind it.
fn put_line(alloc: Global, text: &mut Vec<u8>, line: &Line) -> Result<(), AllocError> {
    put(text, line.name.items())?;
    put_value(alloc, text, &line.flow)?;
    if let Some(spot) = &line.spot {
        put_value(alloc, text, &spot.x)?;
        put_value(alloc, text, &spot.y)?;
        put(text, spot.layer.items())?;
    }
    put(text, b",")
}

/// Puts a call at the end of a text, with a comma behind it.
fn put_call(text: &mut Vec<u8>, call: &Call) -> Result<(), AllocError> {
    put(text, call.name.items())?;
    put(text, call.module.items())?;
    for signal in call.signals.items() {
        put(text, signal.items())?;
    }
    put(text, b",")
}

/// Puts a module at the end of a text: its name, its kind and its corners, its lines, and its calls, with a stroke behind each.
fn put_module(alloc: Global, text: &mut Vec<u8>, module: &Module) -> Result<(), AllocError> {
    put(text, module.name.items())?;
    put_value(alloc, text, &module.kind)?;
    for corner in module.corners.items() {
        put_value(alloc, text, corner)?;
    }
    put(text, b"/")?;
    for line in module.lines.items() {
        put_line(alloc, text, line)?;
    }
    put(text, b"/")?;
    for call in module.calls.items() {
        put_call(text, call)?;
    }
    put(text, b"/")
}

/// A file as words.
pub(crate) fn shown(alloc: Global, file: &YalFile) -> Result<Vec<u8>, AllocError> {
    let mut text = Vec::new(alloc);
    for module in file.modules.items() {
        put_module(alloc, &mut text, module)?;
    }
    Ok(text)
}
