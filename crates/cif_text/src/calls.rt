//! The form of a call: a symbol's number, and translations, mirrorings and rotations in order.

ghost use Rattle.read_base.specs.Answers.{AnswersAs};
ghost use Rattle.cif_text.specs.Calls.{Step as SpecStep, call_form, call_of, mirror_of, point_of, rotate, step_of, translate};
ghost use Rattle.cif_text.specs.Numbers.{greatest};
ghost use Rattle.cif_text.specs.Sound.{FormIsSound, IsFormed};
ghost use Rattle.cif_text.specs.Transforms.{IsWithin, call_under, followed, moves_of, step_seen};
ghost use Rattle.std.specs.Prelude.{◌≡◌, ◌≤◌, ◌+◌, ◌^◌, ℕ, ℤ, IfOk};

use crate::bytes::{after_blanks, after_separators};
use crate::command::CifCommand;
use crate::fault::CifKind;
use crate::forms::Form;
use crate::misfit::Misfit;
use crate::numbers::{Number, natural_at, next_among_blanks, number_at};
use crate::transform::{Step, Transform, after, at_rest};
use limits::MOST_NUMBER;

/// Two numbers among blanks, and what stands behind them. Takes no memory.
fn point_at(bytes: &[u8]) -> Result<((Number, Number), &[u8]), Misfit>
    ensures { (step : ℤ → ℤ → SpecStep) → AnswersAs (λ x. (step x.0.0.value x.0.1.value, x.1.now)) Some result (point_of step bytes.now) }
{
    let (x, rest) = number_at(after_blanks(bytes))?;
    let (y, rest) = next_among_blanks(rest)?;
    Ok(((Number { value: x }, Number { value: y }), rest))
}

/// The axis that a mirroring negates, and what stands behind it. Takes no memory.
fn mirror_at(bytes: &[u8]) -> Result<(Step, &[u8]), Misfit>
    ensures { AnswersAs (λ x. (step_seen x.0, x.1.now)) Some result (mirror_of bytes.now) }
{
    let Some((letter, rest)) = bytes.split_first() else {
        return Err(Misfit::Malformed);
    };
    match *letter {
        b'X' => Ok((Step::MirrorX, rest)),
        b'Y' => Ok((Step::MirrorY, rest)),
        _ => Err(Misfit::Malformed),
    }
}

/// The step that begins with this letter, and what stands behind it. Takes no memory.
#[tactic(auto, unfolding(crate::specs::Calls::step_of))]
fn step_at(letter: u8, bytes: &[u8]) -> Result<(Step, &[u8]), Misfit>
    ensures { AnswersAs (λ x. (step_seen x.0, x.1.now)) Some result (step_of letter bytes.now) }
{
    if letter == b'T' {
        let ((x, y), rest) = point_at(bytes)?;
        return Ok((Step::Translate(x, y), rest));
    }
    if letter == b'M' {
        return mirror_at(after_blanks(bytes));
    }
    if letter == b'R' {
        let ((a, b), rest) = point_at(bytes)?;
        return Ok((Step::Rotate(a, b), rest));
    }
    Err(Misfit::Malformed)
}

/// What a step does behind others, where none of their directions was at fault.
fn followed(so_far: Result<Transform, CifKind>, step: Step) -> Result<Transform, CifKind>
    requires { IfOk so_far (IsWithin (2 ^ 119)) }
    ensures is { result ≡ followed so_far (step_seen step) }
    ensures within { (most : ℕ) → IfOk so_far (IsWithin most) → IfOk result (IsWithin (most + greatest)) }
{
    match so_far {
        Ok(t) => after(step, t),
        Err(kind) => Err(kind),
    }
}

/// What the steps of a call do together, or the fault of the first direction that is not along an axis. Takes no memory.
fn moves_at(bytes: &[u8]) -> Result<Result<Transform, CifKind>, Misfit>
    ensures { AnswersAs (λ x. x) Some result (moves_of bytes.now) }
{
    let mut whole = Ok(at_rest());
    let mut rest = bytes;
    while let Some((letter, after)) = rest.split_first() {
        let (step, after) = step_at(*letter, after)?;
        whole = followed(whole, step);
        rest = after_blanks(after);
    }
    Ok(whole)
}

/// The number of a symbol.
#[derive(Clone, Copy)]
struct SymbolNumber {
    value: u64,
    ghost near: { value ≤ greatest },
}

/// The call of a symbol, where its whole offset has the magnitude of a number.
fn call_of(n: SymbolNumber, t: Transform) -> Result<CifCommand, CifKind>
    ensures is { result ≡ call_of n.value t }
    ensures sound { IfOk result IsFormed }
{
    if t.dx.unsigned_abs() > u128::from(MOST_NUMBER)
        || t.dy.unsigned_abs() > u128::from(MOST_NUMBER)
    {
        return Err(CifKind::Number);
    }
    Ok(CifCommand::Call {
        n: n.value,
        flip: t.flip,
        quarters: t.quarters,
        dx: t.dx as i64,
        dy: t.dy as i64,
    })
}

/// The call of a symbol under what its steps do together.
fn call_under(n: SymbolNumber, whole: Result<Transform, CifKind>) -> Result<CifCommand, CifKind>
    ensures is { result ≡ call_under n.value whole }
    ensures sound { IfOk result IsFormed }
{
    match whole {
        Ok(t) => call_of(n, t),
        Err(kind) => Err(kind),
    }
}

/// The form of a call: the symbol's number and the transformation.
pub(crate) fn call_form(body: &[u8]) -> Form
    ensures is { call_form body.now ≡ result }
    ensures sound { FormIsSound result }
{
    let (n, rest) = natural_at(after_separators(body))?;
    let whole = moves_at(after_blanks(rest))?;
    Ok(call_under(SymbolNumber { value: n }, whole))
}
