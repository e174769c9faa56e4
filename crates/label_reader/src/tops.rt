//! The level whose content is the layout: the main level, or the definition that stands for it.

ghost use Rattle.cif_text.specs.CifReads.{is_open_behind};
ghost use Rattle.label_reader.specs.Definitions.{definitions};
ghost use Rattle.label_reader.specs.Tops.{counts, is_at_top, is_of, is_unturned, main_content, top, top_by};
ghost use Rattle.std.specs.Prelude.{◌≡◌, ◌∷◌, [], find, IfNone, IfSome};

use crate::definitions::{DefinitionPlace, symbol_started};
use cif_text::{CifCommand, UserKind};

// Whether a command gives a level content: a shape, a call, or a name.
fn counts(command: &CifCommand) -> bool
    ensures { result ≡ counts command.now }
{
    match command {
        CifCommand::Box { .. }
        | CifCommand::Wire { .. }
        | CifCommand::Polygon { .. }
        | CifCommand::Call { .. } => true,
        CifCommand::User { kind, .. } => match kind {
            UserKind::InstanceName | UserKind::Label => true,
            UserKind::SymbolName | UserKind::Other => false,
        },
        _ => false,
    }
}

/// Whether a definition is open behind a command.
pub(crate) fn is_open_behind(inside: bool, command: &CifCommand) -> bool
    ensures { result ≡ is_open_behind inside command.now }
{
    match command {
        CifCommand::Start { .. } => true,
        CifCommand::Finish => false,
        _ => inside,
    }
}

// A command of the main level that gives it content, with what follows it: whether a definition is open there, and the commands.
#[derive(Drop)]
struct Content<'c> {
    command: &'c CifCommand,
    inside: bool,
    after: &'c [CifCommand],
}

// The next command of the main level that gives it content, where a definition is open or not before these commands.
fn next_content(commands: &[CifCommand], inside: bool) -> Option<Content<'_>>
    ensures none { IfNone result (main_content inside commands.now ≡ []) }
    ensures some { IfSome result (λ next. main_content inside commands.now ≡ next.command.now ∷ main_content next.inside next.after.now) }
{
    let mut inside = inside;
    let mut rest = commands;
    while let Some((command, after)) = rest.split_first() {
        let stands = !inside;
        inside = is_open_behind(inside, command);
        if stands && counts(command) {
            return Some(Content {
                command,
                inside,
                after,
            });
        }
        rest = after;
    }
    None
}

// Whether a call moves its symbol not at all.
fn is_unturned(flip: bool, quarters: u8, dx: i64, dy: i64) -> bool
    ensures { result ≡ is_unturned flip quarters dx dy }
{
    !flip && quarters == 0 && dx == 0 && dy == 0
}

// Whether a definition is that of a symbol.
fn is_of(commands: &[CifCommand], n: u64, place: DefinitionPlace) -> bool
    ensures { result ≡ is_of commands.now n place }
{
    match symbol_started(commands, place) {
        Some(m) => m == n,
        None => false,
    }
}

// The first definition of a symbol.
fn definition_of(
    commands: &[CifCommand],
    places: &[DefinitionPlace],
    n: u64,
) -> Option<DefinitionPlace>
    ensures { result ≡ find (is_of commands.now n) places.now }
{
    let mut rest = places;
    while let Some((place, after)) = rest.split_first() {
        if is_of(commands, n, *place) {
            return Some(*place);
        }
        rest = after;
    }
    None
}

// The definition that the only content of the main level calls without a turn.
fn called_alone(
    commands: &[CifCommand],
    places: &[DefinitionPlace],
    command: &CifCommand,
) -> Option<DefinitionPlace>
    ensures { result ≡ top_by commands.now places.now (command.now ∷ []) }
{
    match command {
        CifCommand::Call {
            n,
            flip,
            quarters,
            dx,
            dy,
        } if is_unturned(*flip, *quarters, *dx, *dy) => definition_of(commands, places, *n),
        _ => None,
    }
}

/// The definition whose content is the layout, of these definitions of a text, or None where that is the main level.
pub(crate) fn top(commands: &[CifCommand], places: &[DefinitionPlace]) -> Option<DefinitionPlace>
    requires { places.now ≡ definitions commands.now }
    ensures { result ≡ top commands.now }
{
    let Some(first) = next_content(commands, false) else {
        return places.last().copied();
    };
    if next_content(first.after, first.inside).is_some() {
        return None;
    }
    called_alone(commands, places, first.command)
}

/// Whether the command of a number stands at the top, where a definition is open or not.
pub(crate) fn is_at_top(top: Option<DefinitionPlace>, at: u32, inside: bool) -> bool
    ensures { result ≡ is_at_top top at inside }
{
    match top {
        Some(place) => place.start < at && at < place.finish,
        None => !inside,
    }
}
