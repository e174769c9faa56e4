//! Where the definitions of a text stand among its commands.

ghost use Rattle.label_reader.specs.Definitions.{body, definitions, symbol_started};
ghost use Rattle.std.specs.Prelude.{◌≡◌, ◌≤◌, ◌<◌, ◌^◌, length, slice_get, IfOk, option_copied};

use cif_text::CifCommand;
use std::alloc::{AllocError, Global};

/// A definition of a text, by the numbers of the commands that start and finish it, from 0 on.
#[derive(Clone, Copy, Debug, PartialEq, Eq)]
pub(crate) struct DefinitionPlace {
    pub(crate) start: u32,
    pub(crate) finish: u32,
}

/// The definitions of a text, in their order. The one error is want of memory.
pub(crate) fn definitions(
    alloc: Global,
    commands: &[CifCommand],
) -> Result<Vec<DefinitionPlace>, AllocError>
    requires { length commands.now < 2 ^ 32 }
    ensures { IfOk result (λ found. found.items ≡ definitions commands.now) }
{
    let mut found = Vec::new(alloc);
    let mut at: u32 = 0;
    let mut start = 0;
    let mut rest = commands;
    while let Some((command, after)) = rest.split_first() {
        match command {
            CifCommand::Start { .. } => start = at,
            CifCommand::Finish => found.push(DefinitionPlace { start, finish: at })?,
            _ => {}
        }
        at += 1;
        rest = after;
    }
    Ok(found)
}

/// The commands between the start and the finish of a definition.
pub(crate) fn body(commands: &[CifCommand], place: DefinitionPlace) -> &[CifCommand]
    ensures { result.now ≡ body commands.now place }
{
    let from = place.start as usize + 1;
    let to = (place.finish as usize).min(commands.len());
    &commands[from.min(to)..to]
}

/// The number of the symbol whose definition starts there.
pub(crate) fn symbol_started(commands: &[CifCommand], place: DefinitionPlace) -> Option<u64>
    ensures { result ≡ symbol_started (slice_get commands.now place.start) }
{
    match commands.get(place.start as usize) {
        Some(CifCommand::Start { n, .. }) => Some(*n),
        _ => None,
    }
}
