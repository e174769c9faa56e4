//! Integers of a text with a sign, without one, or above 0, of magnitude at most 1,000,000,000,000.

ghost use Rattle.read_base.specs.Answers.{AnswersAs};
ghost use Rattle.cif_text.specs.Bytes.{is_blank, is_separator};
ghost use Rattle.cif_text.specs.Numbers.{apart, greatest, natural, number, positive, value_of};
ghost use Rattle.cif_text.specs.Printable.{IsCifNumber, IsPart};
ghost use Rattle.std.specs.Prelude.{◌≡◌, ◌<◌, ◌≤◌, if◌then◌else◌, None, Some, length, nat_le, IfOk, IfSome};

use crate::bytes::{
    after_blanks, after_separators, begins_with_blank, begins_with_separator, split_digits,
};
use crate::misfit::Misfit;
use limits::MOST_NUMBER;
use read_base::number_within;

/// A number that can be read.
#[derive(Clone, Copy, Debug)]
pub(crate) struct Number {
    pub(crate) value: i64,
    ghost near: { IsCifNumber value },
}

/// The number of some digits that begin at a place, and what stands behind them.
fn value_at<'a>(place: usize, digits: &[u8], rest: &'a [u8]) -> Result<(u64, &'a [u8]), Misfit>
    ensures gives { AnswersAs (λ x. (x.0, x.1.now)) Some result (value_of place digits.now rest.entry.now) }
    ensures near { IfOk result (λ x. x.0 ≤ greatest) }
    ensures rest { IfOk result (λ x. x.1.now ≡ rest.entry.now) }
{
    if digits.is_empty() {
        return Err(Misfit::Malformed);
    }
    match number_within(MOST_NUMBER, digits) {
        Some(n) => Ok((n, rest)),
        None => Err(Misfit::TooGreat(place)),
    }
}

/// The number without a sign that stands first, and what stands behind it. Takes no memory.
#[tactic(auto, unfolding(crate::specs::Numbers::natural))]
pub(crate) fn natural_at(bytes: &[u8]) -> Result<(u64, &[u8]), Misfit>
    ensures gives { AnswersAs (λ x. (x.0, x.1.now)) Some result (natural bytes.now) }
    ensures near { IfOk result (λ x. x.0 ≤ greatest) }
{
    let (digits, rest) = split_digits(bytes);
    value_at(bytes.len(), digits, rest)
}

/// The number above 0 that stands first, and what stands behind it. Takes no memory.
#[tactic(auto, unfolding(crate::specs::Numbers::positive))]
pub(crate) fn positive_at(bytes: &[u8]) -> Result<(u64, &[u8]), Misfit>
    ensures gives { AnswersAs (λ x. (x.0, x.1.now)) Some result (positive bytes.now) }
    ensures near { IfOk result (λ x. IsPart x.0) }
{
    let (n, rest) = natural_at(bytes)?;
    if n == 0 {
        return Err(Misfit::Malformed);
    }
    Ok((n, rest))
}

/// The number that stands first, perhaps behind a minus sign, and what stands behind it. Takes no memory.
#[tactic(auto, unfolding(crate::specs::Numbers::number))]
pub(crate) fn number_at(bytes: &[u8]) -> Result<(i64, &[u8]), Misfit>
    ensures gives { AnswersAs (λ x. (x.0, x.1.now)) Some result (number bytes.now) }
    ensures near { IfOk result (λ x. IsCifNumber x.0) }
{
    let Some((first, after)) = bytes.split_first() else {
        return Err(Misfit::Malformed);
    };
    if *first == b'-' {
        let (digits, rest) = split_digits(after);
        let (n, rest) = value_at(bytes.len(), digits, rest)?;
        return Ok((-(n as i64), rest));
    }
    let (n, rest) = natural_at(bytes)?;
    Ok((n as i64, rest))
}

/// The number above 0 behind one separator or more, and what stands behind it. Takes no memory.
pub(crate) fn next_positive(bytes: &[u8]) -> Result<(u64, &[u8]), Misfit>
    ensures gives { AnswersAs (λ x. (x.0, x.1.now)) Some result (apart is_separator positive bytes.now) }
    ensures near { IfOk result (λ x. IsPart x.0) }
{
    if !begins_with_separator(bytes) {
        return Err(Misfit::Malformed);
    }
    positive_at(after_separators(bytes))
}

/// The number behind one separator or more, and what stands behind it. Takes no memory.
pub(crate) fn next_number(bytes: &[u8]) -> Result<(i64, &[u8]), Misfit>
    ensures gives { AnswersAs (λ x. (x.0, x.1.now)) Some result (apart is_separator number bytes.now) }
    ensures near { IfOk result (λ x. IsCifNumber x.0) }
{
    if !begins_with_separator(bytes) {
        return Err(Misfit::Malformed);
    }
    number_at(after_separators(bytes))
}

/// The number behind one blank or more, and what stands behind it. Takes no memory.
pub(crate) fn next_among_blanks(bytes: &[u8]) -> Result<(i64, &[u8]), Misfit>
    ensures gives { AnswersAs (λ x. (x.0, x.1.now)) Some result (apart is_blank number bytes.now) }
    ensures near { IfOk result (λ x. IsCifNumber x.0) }
{
    if !begins_with_blank(bytes) {
        return Err(Misfit::Malformed);
    }
    number_at(after_blanks(bytes))
}
