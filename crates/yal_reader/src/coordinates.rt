//! Coordinates, perhaps behind a minus sign, of magnitude at most 100,000,000 units.

ghost use Rattle.read_base.specs.Answers.{AnswersAs};
ghost use Rattle.read_base.specs.Digits.{number_behind as number_behind_digits, number_within as number_of_digits};
ghost use Rattle.std.specs.List.{list_all, prefix_len};
ghost use Rattle.std.specs.Prelude.{◌≡◌, ◌<◌, ◌≤◌, ◌++◌, length, replicate, IfOk, IfSome};
ghost use Rattle.yal_reader.specs.Numbers.{a_number, in_units, is_no_point as is_before_point, is_zero as is_zero_digit, magnitude, number, pointed};
ghost use Rattle.yal_reader.specs.Tokens.{tokens};

use crate::fault::{Flaw, YalKind};
use crate::notation::Numbers;
use crate::tokens::{bad, word_at};
use limits::MOST_COORDINATE;
use read_base::{number_behind, number_within};

/// The greatest magnitude of a coordinate, in units.
const MOST: u64 = MOST_COORDINATE as u64;

/// Whether a byte is the digit 0.
fn is_zero(byte: u8) -> bool
    ensures { result ≡ is_zero_digit byte }
{
    byte == b'0'
}

/// Whether all bytes are the digit 0.
fn are_zeros(digits: &[u8]) -> bool
    ensures { result ≡ list_all is_zero_digit digits.now }
{
    digits.iter().all(|byte| is_zero(*byte))
}

/// Whether a byte is no point.
fn is_no_point(byte: u8) -> bool
    ensures { result ≡ is_before_point byte }
{
    byte != b'.'
}

/// How many bytes stand before the first point.
fn whole_len(text: &[u8]) -> usize
    ensures { result ≡ prefix_len is_before_point text.now }
{
    text.iter().take_while(|byte| is_no_point(**byte)).count()
}

/// The number that so many zeros write behind a number, if it is at most 100,000,000. Behind a number above 0 these are at most eight, and behind 0
/// none is looked at.
fn with_zeros(n: u64, zeros: usize) -> Option<u64>
    requires { n ≤ MOST_COORDINATE }
    ensures { result ≡ number_behind_digits MOST_COORDINATE n (replicate zeros 48) }
{
    if zeros == 0 {
        return Some(n);
    }
    if n == 0 {
        return Some(0);
    }
    let more = number_behind(MOST, n, b"0")?;
    with_zeros(more, zeros - 1)
}

/// The number that digits, further ones and so many zeros write one behind the other, if it is at most 100,000,000.
fn digits_within(digits: &[u8], further: &[u8], zeros: usize) -> Option<u64>
    ensures { result ≡ number_of_digits MOST_COORDINATE (digits.now ++ (further.now ++ replicate zeros 48)) }
{
    let n = number_within(MOST, digits)?;
    let n = number_behind(MOST, n, further)?;
    with_zeros(n, zeros)
}

/// The number of units that one or more digits write, with so many places of a fraction behind them.
#[tactic(auto, unfolding(crate::specs::Numbers::in_units))]
fn in_units(decimals: usize, whole: &[u8], fraction: &[u8]) -> Option<u64>
    ensures { result ≡ in_units decimals whole.now fraction.now }
{
    if whole.is_empty() {
        return None;
    }
    let (written, past) = fraction.split_at(decimals.min(fraction.len()));
    if !are_zeros(past) {
        return None;
    }
    digits_within(whole, written, decimals - written.len())
}

/// The number of units that digits write, with what stands from the first point on.
#[tactic(auto, unfolding(crate::specs::Numbers::pointed))]
fn pointed(decimals: u32, whole: &[u8], behind: &[u8]) -> Option<u64>
    ensures { result ≡ pointed decimals whole.now behind.now }
{
    let Some((_, fraction)) = behind.split_first() else {
        return in_units(decimals as usize, whole, b"");
    };
    if fraction.is_empty() {
        return None;
    }
    in_units(decimals as usize, whole, fraction)
}

/// The number of units that a word without a sign writes, if it is at most 100,000,000.
#[tactic(auto, unfolding(crate::specs::Numbers::magnitude))]
fn magnitude(numbers: Numbers, text: &[u8]) -> Option<u64>
    ensures is { result ≡ magnitude numbers text.now }
    ensures near { IfSome result (λ n. n ≤ MOST_COORDINATE) }
{
    let Numbers::Decimal(decimals) = numbers else {
        if text.is_empty() {
            return None;
        }
        return number_within(MOST, text);
    };
    let (whole, behind) = text.split_at(whole_len(text));
    pointed(decimals, whole, behind)
}

/// The number of units that a word is: digits, perhaps with a point, and perhaps behind a minus sign, of magnitude at most 100,000,000.
#[tactic(auto, unfolding(crate::specs::Numbers::number))]
pub(crate) fn number_of(numbers: Numbers, text: &[u8]) -> Option<i64>
    ensures { result ≡ number numbers text.now }
{
    let (first, digits) = text.split_first()?;
    if *first == b'-' {
        let n = magnitude(numbers, digits)?;
        return Some(-(n as i64));
    }
    let n = magnitude(numbers, text)?;
    Some(n as i64)
}

/// The number that comes next, and the text behind it. Takes no memory.
#[tactic(auto, unfolding(crate::specs::Numbers::a_number))]
pub(crate) fn number_at(numbers: Numbers, bytes: &[u8]) -> Result<(i64, &[u8]), Flaw>
    ensures gives { AnswersAs (λ x. (x.0, tokens x.1.now)) Some result (a_number numbers (tokens bytes.now)) }
    ensures shorter { IfOk result (λ x. length x.1.now < length bytes.now) }
{
    let (word, rest) = word_at(bytes)?;
    let Some(n) = number_of(numbers, word.text) else {
        return Err(bad(YalKind::Number, word));
    };
    Ok((n, rest))
}
