//! The part of a layout that words ask for.

ghost use Rattle.command_words.specs.Boxes.{box_in, box_of, hundredths_of, is_no_comma as is_before_comma, is_no_point as is_before_point, length_before, length_in, part_given, pointed, size_of};
ghost use Rattle.std.specs.List.{prefix_len};
ghost use Rattle.std.specs.Prelude.{◌≡◌, ◌≤◌, option_map, IfSome};

use geom_core::Rect;
use read_base::{number_behind, number_within};

/// The greatest size of a length that words ask for, in hundredths of a micron.
pub(crate) const MOST_HUNDREDTHS: u64 = 1_000_000_000;

// The hundredths that one or more digits and two behind the point write.
#[tactic(auto, unfolding(crate::specs::Boxes::hundredths_of))]
fn hundredths_of(whole: &[u8], tenth: u8, hundredth: u8) -> Option<u64>
    ensures is { result ≡ hundredths_of whole.now tenth hundredth }
    ensures most { IfSome result (λ n. n ≤ MOST_HUNDREDTHS) }
{
    if whole.is_empty() {
        return None;
    }
    let microns = number_within(MOST_HUNDREDTHS, whole)?;
    number_behind(MOST_HUNDREDTHS, microns, &[tenth, hundredth])
}

// The hundredths that digits write, with what stands from the first point on.
#[tactic(auto, unfolding(crate::specs::Boxes::pointed))]
fn pointed(whole: &[u8], behind: &[u8]) -> Option<u64>
    ensures is { result ≡ pointed whole.now behind.now }
    ensures most { IfSome result (λ n. n ≤ MOST_HUNDREDTHS) }
{
    match behind {
        [] => hundredths_of(whole, b'0', b'0'),
        [_, tenth] => hundredths_of(whole, *tenth, b'0'),
        [_, tenth, hundredth] => hundredths_of(whole, *tenth, *hundredth),
        _ => None,
    }
}

// Whether a byte is no point.
fn is_no_point(byte: u8) -> bool
    ensures { result ≡ is_before_point byte }
{
    byte != b'.'
}

// How many bytes stand before the first point.
fn whole_len(text: &[u8]) -> usize
    ensures { result ≡ prefix_len is_before_point text.now }
{
    text.iter().take_while(|byte| is_no_point(**byte)).count()
}

// The hundredths of a length without a sign.
#[tactic(auto, unfolding(crate::specs::Boxes::size_of))]
fn size_of(text: &[u8]) -> Option<u64>
    ensures is { result ≡ size_of text.now }
    ensures most { IfSome result (λ n. n ≤ MOST_HUNDREDTHS) }
{
    let (whole, behind) = text.split_at(whole_len(text));
    pointed(whole, behind)
}

// A length in half centimicrons.
#[tactic(auto, unfolding(crate::specs::Boxes::length_in))]
fn length_in(text: &[u8]) -> Option<i64>
    ensures { result ≡ length_in text.now }
{
    let (first, digits) = text.split_first()?;
    if *first == b'-' {
        let hundredths = size_of(digits)?;
        return Some(-(2 * hundredths as i64));
    }
    let hundredths = size_of(text)?;
    Some(2 * hundredths as i64)
}

// Whether a byte is no comma.
fn is_no_comma(byte: u8) -> bool
    ensures { result ≡ is_before_comma byte }
{
    byte != b','
}

// How many bytes stand before the first comma.
fn part_len(text: &[u8]) -> usize
    ensures { result ≡ prefix_len is_before_comma text.now }
{
    text.iter().take_while(|byte| is_no_comma(**byte)).count()
}

// A length, and what stands behind the comma that ends it.
#[tactic(auto, unfolding(crate::specs::Boxes::length_before))]
fn length_before(text: &[u8]) -> Option<(i64, &[u8])>
    ensures { option_map (λ x. (x.0, x.1.now)) result ≡ length_before text.now }
{
    let (part, behind) = text.split_at(part_len(text));
    let length = length_in(part)?;
    let (_, rest) = behind.split_first()?;
    Some((length, rest))
}

// The box of four sides, if it has a width and a height.
fn box_of(x0: i64, y0: i64, x1: i64, y1: i64) -> Option<Rect>
    ensures { result ≡ box_of x0 y0 x1 y1 }
{
    if x0 < x1 && y0 < y1 {
        return Some(Rect { x0, y0, x1, y1 });
    }
    None
}

// The box that four lengths write.
#[tactic(auto, unfolding(crate::specs::Boxes::box_in))]
fn box_in(text: &[u8]) -> Option<Rect>
    ensures { result ≡ box_in text.now }
{
    let (x0, text) = length_before(text)?;
    let (y0, text) = length_before(text)?;
    let (x1, text) = length_before(text)?;
    let y1 = length_in(text)?;
    box_of(x0, y0, x1, y1)
}

/// The part that a value asks for. Takes no memory.
pub(crate) fn part_given(value: Option<&str>) -> Option<Option<Rect>>
    ensures { result ≡ part_given (option_map (λ s. s.now) value.entry) }
{
    match value {
        Some(word) => Some(Some(box_in(word.as_bytes())?)),
        None => Some(None),
    }
}
