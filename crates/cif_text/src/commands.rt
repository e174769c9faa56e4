//! The next command of a text by its first byte, nested comments among them, and commands that are left out.

ghost use Rattle.read_base.specs.Answers.{Answers, AnswersAs};
ghost use Rattle.cif_text.specs.Answers.{HasPlaceWithin};
ghost use Rattle.cif_text.specs.Bytes.{not_semicolon, span};
ghost use Rattle.cif_text.specs.Commands.{after_comment, command_at, comment_of, cut_of, form_of, is_left_out, may_stand, open_behind, reading_of};
ghost use Rattle.cif_text.specs.Sound.{FormIsSound, IsInPlace};
ghost use Rattle.cif_text.specs.declared.command.CifCommand.TheVariants as commands;
ghost use Rattle.std.specs.Prelude.{◌≡◌, ◌≤◌, ◌<◌, ◌+◌, ◌^◌, IfOk, length, option_map};

use crate::bytes::{after_blanks, are_blanks, begins_with, split_body};
use crate::calls::call_form;
use crate::command::CifCommand;
use crate::fault::{CifKind, Flaw, Stop};
use crate::forms::{Form, box_form, definition_form, layer_form, user_form};
use crate::misfit::Misfit;
use crate::paths::{polygon_form, wire_form};
use std::alloc::{AllocError, Global};

/// How many parentheses are open inside a comment behind a byte of it.
fn open_behind(byte: u8, inner: usize) -> usize
    requires { inner < 2 ^ 63 }
    ensures is { result ≡ open_behind byte inner }
    ensures most { result ≤ inner + 1 }
{
    match byte {
        b'(' => inner + 1,
        b')' => inner.saturating_sub(1),
        _ => inner,
    }
}

/// What stands behind the parenthesis that closes a comment; parentheses nest. None where it is not closed.
#[tactic(auto, unfolding(crate::specs::Commands::after_comment))]
fn after_comment(bytes: &[u8]) -> Option<&[u8]>
    ensures { option_map (λ rest. rest.now) result ≡ after_comment 0 bytes.now }
{
    let mut inner: usize = 0;
    let mut rest = bytes;
    while let Some((byte, after)) = rest.split_first() {
        if *byte == b')' && inner == 0 {
            return Some(after);
        }
        inner = open_behind(*byte, inner);
        rest = after;
    }
    None
}

/// A comment that begins where so many bytes are left, from what stands behind its first byte. Takes no memory.
fn comment(left: usize, bytes: &[u8]) -> Result<(CifCommand, &[u8]), Flaw>
    ensures stands { IfOk result (λ x. x.0 ≡ commands.Comment) }
    ensures tells { AnswersAs (λ x. (x.0, x.1.now)) Some result (comment_of left (after_comment 0 bytes.now)) }
{
    let Some(bytes) = after_comment(bytes) else {
        return Err(Flaw {
            kind: CifKind::Unclosed,
            left,
        });
    };
    let (body, tail) = split_body(bytes);
    let Some((_, rest)) = tail.split_first() else {
        return Err(Flaw {
            kind: CifKind::NoEnd,
            left: 0,
        });
    };
    if !are_blanks(body) {
        return Err(Flaw {
            kind: CifKind::BadCommand,
            left,
        });
    }
    Ok((CifCommand::Comment, rest))
}

/// Whether a command is one of those that are not read.
fn is_left_out(first: u8, body: &[u8]) -> bool
    ensures { result ≡ is_left_out first body.now }
{
    match first {
        b'R' => true,
        b'D' => begins_with(b'D', after_blanks(body)),
        _ => false,
    }
}

/// The form of a command that begins with this byte. The one error is want of memory.
fn form_at(alloc: Global, first: u8, body: &[u8]) -> Result<Form, AllocError>
    ensures is { IfOk result (λ form. form_of first body.now ≡ form) }
    ensures sound { IfOk result FormIsSound }
{
    if first.is_ascii_digit() {
        return user_form(alloc, first, body);
    }
    Ok(match first {
        b'B' => box_form(body),
        b'L' => layer_form(body),
        b'D' => definition_form(body),
        b'C' => call_form(body),
        b'W' => return wire_form(alloc, body),
        b'P' => return polygon_form(alloc, body),
        _ => Err(Misfit::Malformed),
    })
}

/// Whether a command may stand here: a definition starts outside of definitions and finishes inside one.
fn may_stand(inside: bool, command: &CifCommand) -> bool
    ensures { result ≡ may_stand inside command.now }
{
    match command {
        CifCommand::Start { .. } => !inside,
        CifCommand::Finish => inside,
        _ => true,
    }
}

/// What a command reads as from its form: so many bytes are left at the command, and so many behind its semicolon.
fn from_form(inside: bool, left: usize, rest: &[u8], form: Form) -> Result<CifCommand, Flaw>
    requires place { HasPlaceWithin left (length rest.now) form }
    requires sound { FormIsSound form }
    ensures stands { IfOk result (IsInPlace inside) }
    ensures tells { AnswersAs (λ command. (command, rest.now)) Some result (reading_of inside left rest.now form) }
{
    match form {
        Ok(Ok(command)) => {
            if !may_stand(inside, &command) {
                return Err(Flaw {
                    kind: CifKind::BadCommand,
                    left,
                });
            }
            Ok(command)
        }
        Ok(Err(kind)) => Err(Flaw { kind, left }),
        Err(Misfit::TooGreat(before)) => Err(Flaw {
            kind: CifKind::Number,
            left: before + 1 + rest.len(),
        }),
        Err(Misfit::Malformed) => Err(Flaw {
            kind: CifKind::BadCommand,
            left,
        }),
    }
}

/// A command that begins with this byte, which these follow: it goes up to the semicolon that comes next.
fn cut_command(
    alloc: Global,
    inside: bool,
    first: u8,
    bytes: &[u8],
) -> Result<(CifCommand, &[u8]), Stop>
    ensures stands { IfOk result (λ x. IsInPlace inside x.0) }
    ensures gives { Answers (λ x. (x.0, x.1.now)) result (cut_of inside (length bytes.now + 1) first (span not_semicolon bytes.now).0 (span not_semicolon bytes.now).1) }
{
    let left = bytes.len() + 1;
    let (body, tail) = split_body(bytes);
    let Some((_, rest)) = tail.split_first() else {
        return Err(Stop::At(Flaw {
            kind: CifKind::NoEnd,
            left: 0,
        }));
    };
    if is_left_out(first, body) {
        return Err(Stop::At(Flaw {
            kind: CifKind::LeftOut(first),
            left,
        }));
    }
    let form = form_at(alloc, first, body)?;
    let command = from_form(inside, left, rest, form)?;
    Ok((command, rest))
}

/// The command that begins here, inside a definition or outside, and what stands behind it.
pub(crate) fn command_at(
    alloc: Global,
    inside: bool,
    bytes: &[u8],
) -> Result<(CifCommand, &[u8]), Stop>
    ensures stands { IfOk result (λ x. IsInPlace inside x.0) }
    ensures gives { Answers (λ x. (x.0, x.1.now)) result (command_at inside bytes.now) }
{
    let Some((first, after)) = bytes.split_first() else {
        return Err(Stop::At(Flaw {
            kind: CifKind::NoEnd,
            left: 0,
        }));
    };
    if *first == b'(' {
        return Ok(comment(bytes.len(), after)?);
    }
    if *first != b'E' {
        return cut_command(alloc, inside, *first, after);
    }
    if inside {
        return Err(Stop::At(Flaw {
            kind: CifKind::NoEnd,
            left: bytes.len(),
        }));
    }
    Ok((CifCommand::End, &[]))
}
