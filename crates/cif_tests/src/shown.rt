//! How a text reads, as a text.

use cif_text::{CifCommand, CifFault, UserKind, read_commands};
use geom_core::Corner;
use std::alloc::{AllocError, Global};

/// Puts a part, its text and a semicolon at the end of a text.
fn put(into: &mut Vec<u8>, part: &[u8], text: &[u8]) -> Result<(), AllocError> {
    into.extend_from_slice(part)?;
    into.extend_from_slice(text)?;
    into.extend_from_slice(b";")
}

/// The digits that a user command begins with.
fn digits(kind: UserKind) -> &'static str {
    match kind {
        UserKind::SymbolName => "9 ",
        UserKind::InstanceName => "91 ",
        UserKind::Label => "94 ",
        UserKind::Other => "0 ",
    }
}

/// Puts a path at the end of a text: what stands before it, and its points.
fn put_path(
    alloc: Global,
    into: &mut Vec<u8>,
    first: &[u8],
    path: &[Corner],
) -> Result<(), AllocError> {
    into.extend_from_slice(first)?;
    for corner in path {
        let point = format!(in alloc; " {} {}", corner.x, corner.y)?;
        into.extend_from_slice(point.as_bytes())?;
    }
    into.extend_from_slice(b";")
}

/// Puts a command at the end of a text: its letter and its numbers.
fn put_command(alloc: Global, into: &mut Vec<u8>, command: &CifCommand) -> Result<(), AllocError> {
    match command {
        CifCommand::Box {
            length,
            width,
            cx,
            cy,
            upright,
        } => {
            let line = format!(in alloc; "{length} {width} {cx} {cy} {upright}")?;
            put(into, b"B ", line.as_bytes())
        }
        CifCommand::Wire { width, path } => {
            let first = format!(in alloc; "W {width}")?;
            put_path(alloc, into, first.as_bytes(), path.items())
        }
        CifCommand::Polygon { path } => put_path(alloc, into, b"P", path.items()),
        CifCommand::Layer(layer) => put(into, b"L ", layer.text()),
        CifCommand::Start { n, a, b } => {
            let line = format!(in alloc; "{n} {a} {b}")?;
            put(into, b"DS ", line.as_bytes())
        }
        CifCommand::Finish => put(into, b"DF", b""),
        CifCommand::Call {
            n,
            flip,
            quarters,
            dx,
            dy,
        } => {
            let line = format!(in alloc; "{n} {flip} {quarters} {dx} {dy}")?;
            put(into, b"C ", line.as_bytes())
        }
        CifCommand::Comment => put(into, b"()", b""),
        CifCommand::User { kind, text } => put(into, digits(*kind).as_bytes(), text.items()),
        CifCommand::End => into.extend_from_slice(b"E"),
    }
}

/// Commands, one after another.
fn shown_commands(alloc: Global, commands: &[CifCommand]) -> Result<Vec<u8>, AllocError> {
    let mut text = Vec::new(alloc);
    for command in commands {
        put_command(alloc, &mut text, command)?;
    }
    Ok(text)
}

/// How a text reads: its commands, or the kind and the place of its fault.
fn shown(alloc: Global, text: &[u8]) -> Result<Vec<u8>, AllocError> {
    match read_commands(alloc, text) {
        Ok(commands) => shown_commands(alloc, commands.as_slice()),
        Err(CifFault::Bad { kind, at }) => {
            Ok(
                format!(in alloc; "{kind:?} {at}")?
                    .as_bytes()
                    .to_vec(alloc)?,
            )
        }
        Err(CifFault::Memory) => Err(AllocError),
    }
}

/// Whether a text reads so.
pub(crate) fn is_shown(alloc: Global, text: &[u8], want: &[u8]) -> Result<bool, AllocError> {
    Ok(shown(alloc, text)?.as_slice() == want)
}

/// Whether each of these texts reads as what stands beside it.
pub(crate) fn are_shown(alloc: Global, texts: &[(&str, &str)]) -> Result<bool, AllocError> {
    for (text, want) in texts {
        if !is_shown(alloc, text.as_bytes(), want.as_bytes())? {
            return Ok(false);
        }
    }
    Ok(true)
}
