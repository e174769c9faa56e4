//! What the bytes of boxes, layers, definitions and user commands read as.

ghost use Rattle.cif_text.specs.Answers.{user_kind_of};
ghost use Rattle.cif_text.specs.Bytes.{is_blank};
ghost use Rattle.cif_text.specs.Forms.{axis_of, box_along, box_end, box_form, definition_form, finished, layer_form, naming, start_form, user_form};
ghost use Rattle.cif_text.specs.Printable.{IsCifNumber, IsPart};
ghost use Rattle.cif_text.specs.Sound.{FormIsSound, IsFormed};
ghost use Rattle.cif_text.specs.declared.command.CifCommand.TheVariants as commands;
ghost use Rattle.std.specs.Prelude.{◌≡◌, IfOk, Ok};

use crate::bytes::{
    after_blanks, after_separators, are_blanks, are_separators, split_digits, split_layer,
    without_white,
};
use crate::command::{CifCommand, UserKind};
use crate::directions::is_upright;
use crate::fault::CifKind;
use crate::misfit::Misfit;
use crate::numbers::{natural_at, next_number, next_positive, positive_at};
use geom_core::{LayerName, Name};
use std::alloc::{AllocError, Global};

/// What the bytes of a command read as: none of its forms, or a form, which is a command or has a fault of its own.
pub(crate) type Form = Result<Result<CifCommand, CifKind>, Misfit>;

/// The numbers of a box, but for its direction.
#[derive(Clone, Copy)]
struct BoxNumbers {
    length: u64,
    width: u64,
    cx: i64,
    cy: i64,
    ghost length_is: { IsPart length },
    ghost width_is: { IsPart width },
    ghost cx_near: { IsCifNumber cx },
    ghost cy_near: { IsCifNumber cy },
}

/// A box whose length lies along a direction.
fn box_along(numbers: BoxNumbers, dx: i64, dy: i64) -> Result<CifCommand, CifKind>
    ensures is { result ≡ box_along numbers.length numbers.width numbers.cx numbers.cy (axis_of dx dy) }
    ensures sound { IfOk result IsFormed }
{
    let Some(upright) = is_upright(dx, dy) else {
        return Err(CifKind::Turned);
    };
    Ok(CifCommand::Box {
        length: numbers.length as i64,
        width: numbers.width as i64,
        cx: numbers.cx,
        cy: numbers.cy,
        upright,
    })
}

/// What stands behind a box's centre: perhaps a direction, else the length lies along x.
#[tactic(auto, unfolding(crate::specs::Forms::box_end))]
fn box_end(numbers: BoxNumbers, bytes: &[u8]) -> Form
    ensures is { box_end numbers.length numbers.width numbers.cx numbers.cy bytes.now ≡ result }
    ensures sound { FormIsSound result }
{
    if are_separators(bytes) {
        return Ok(box_along(numbers, 1, 0));
    }
    let (dx, rest) = next_number(bytes)?;
    let (dy, rest) = next_number(rest)?;
    if !are_separators(rest) {
        return Err(Misfit::Malformed);
    }
    Ok(box_along(numbers, dx, dy))
}

/// The form of a box: length, width, centre, and perhaps a direction.
#[tactic(auto, unfolding(crate::specs::Forms::box_form))]
pub(crate) fn box_form(body: &[u8]) -> Form
    ensures is { box_form body.now ≡ result }
    ensures sound { FormIsSound result }
{
    let (length, rest) = positive_at(after_separators(body))?;
    let (width, rest) = next_positive(rest)?;
    let (cx, rest) = next_number(rest)?;
    let (cy, rest) = next_number(rest)?;
    let numbers = BoxNumbers {
        length,
        width,
        cx,
        cy,
    };
    box_end(numbers, rest)
}

/// The form of a layer: its short name.
#[tactic(auto, unfolding(crate::specs::Forms::layer_form))]
pub(crate) fn layer_form(body: &[u8]) -> Form
    ensures is { layer_form body.now ≡ result }
    ensures sound { FormIsSound result }
{
    let (text, rest) = split_layer(after_blanks(body));
    let Some(layer) = LayerName::new(text) else {
        return Err(Misfit::Malformed);
    };
    if !are_blanks(rest) {
        return Err(Misfit::Malformed);
    }
    Ok(Ok(CifCommand::Layer(layer)))
}

/// The form of a definition's start, behind its letters: the symbol's number, and perhaps a scale.
#[tactic(auto, unfolding(crate::specs::Forms::start_form))]
fn start_form(body: &[u8]) -> Form
    ensures is { start_form body.now ≡ result }
    ensures sound { FormIsSound result }
{
    let (n, rest) = natural_at(after_separators(body))?;
    if are_separators(rest) {
        return Ok(Ok(CifCommand::Start { n, a: 1, b: 1 }));
    }
    let (a, rest) = next_positive(rest)?;
    let (b, rest) = next_positive(rest)?;
    if !are_separators(rest) {
        return Err(Misfit::Malformed);
    }
    Ok(Ok(CifCommand::Start { n, a, b }))
}

/// The form of a definition's finish, behind its letters.
fn finish_form(body: &[u8]) -> Form
    ensures is { finished is_blank body.now commands.Finish ≡ result }
    ensures sound { FormIsSound result }
{
    if !are_blanks(body) {
        return Err(Misfit::Malformed);
    }
    Ok(Ok(CifCommand::Finish))
}

/// The form of a definition's start or finish.
#[tactic(auto, unfolding(crate::specs::Forms::definition_form))]
pub(crate) fn definition_form(body: &[u8]) -> Form
    ensures is { definition_form body.now ≡ result }
    ensures sound { FormIsSound result }
{
    let Some((letter, rest)) = after_blanks(body).split_first() else {
        return Err(Misfit::Malformed);
    };
    match *letter {
        b'S' => start_form(rest),
        b'F' => finish_form(rest),
        _ => Err(Misfit::Malformed),
    }
}

/// A user command of a text in memory of its own. The one error is want of memory.
fn user_command(alloc: Global, kind: UserKind, text: &[u8]) -> Result<CifCommand, AllocError>
    ensures { IfOk result (λ command. command ≡ commands.User kind text.now) }
{
    let text = Name::new(text.to_vec(alloc)?);
    Ok(CifCommand::User { kind, text })
}

/// A user command that may be without a text. The one error is want of memory.
fn unnamed(alloc: Global, kind: UserKind, text: &[u8]) -> Result<Form, AllocError>
    ensures is { IfOk result (λ form. form ≡ Ok (Ok (commands.User kind text.now))) }
    ensures sound { IfOk result FormIsSound }
{
    let command = user_command(alloc, kind, text)?;
    Ok(Ok(Ok(command)))
}

/// A user command that names something needs a name. The one error is want of memory.
fn naming(alloc: Global, kind: UserKind, text: &[u8]) -> Result<Form, AllocError>
    ensures is { IfOk result (λ form. naming kind text.now ≡ form) }
    ensures sound { IfOk result FormIsSound }
{
    if text.is_empty() {
        return Ok(Err(Misfit::Malformed));
    }
    let command = user_command(alloc, kind, text)?;
    Ok(Ok(Ok(command)))
}

/// What a user command is for, by its first digit and those that follow it.
fn user_kind(first: u8, digits: &[u8]) -> UserKind
    ensures { result ≡ user_kind_of first digits.now }
{
    if first != b'9' {
        return UserKind::Other;
    }
    match digits {
        [] => UserKind::SymbolName,
        [b'1'] => UserKind::InstanceName,
        [b'4'] => UserKind::Label,
        _ => UserKind::Other,
    }
}

/// The form of a user command that begins with this digit. The one error is want of memory.
#[tactic(auto, unfolding(crate::specs::Forms::user_form))]
pub(crate) fn user_form(alloc: Global, first: u8, body: &[u8]) -> Result<Form, AllocError>
    ensures is { IfOk result (λ form. user_form first body.now ≡ form) }
    ensures sound { IfOk result FormIsSound }
{
    let (digits, rest) = split_digits(body);
    let text = without_white(rest);
    match user_kind(first, digits) {
        UserKind::Label => unnamed(alloc, UserKind::Label, text),
        UserKind::Other => unnamed(alloc, UserKind::Other, text),
        kind => naming(alloc, kind, text),
    }
}
