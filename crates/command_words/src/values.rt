//! What the values of arguments ask for.

ghost use Rattle.command_words.specs.Arguments.{is_given};
ghost use Rattle.command_words.specs.Command.{place_of, rows_given, seed_given, style_given, tries_given};
ghost use Rattle.command_words.specs.Importing.{decimals_given};
ghost use Rattle.command_words.specs.NumberWord.{count_in, number_of};
ghost use Rattle.std.specs.Prelude.{◌≡◌, map, option_and_then, option_map};

use crate::number_word::{
    MadeCount, RowCount, TryCount, read_count, read_decimals, read_number, read_rows, read_tries,
};
use choose_core::Style;

/// The rows that a value asks for.
pub(crate) fn rows_given(value: Option<&str>) -> Option<Option<RowCount>>
    ensures { result ≡ rows_given (option_map (λ s. s.now) value.entry) }
{
    match value {
        Some(word) => Some(Some(read_rows(word)?)),
        None => Some(None),
    }
}

/// The number of tries that a value asks for, 1 where there is none.
pub(crate) fn tries_given(value: Option<&str>) -> Option<TryCount>
    ensures { result ≡ tries_given (option_map (λ s. s.now) value.entry) }
{
    match value {
        Some(word) => read_tries(word),
        None => Some(TryCount::one()),
    }
}

/// The seed that a value asks for, 1 where there is none.
pub(crate) fn seed_given(value: Option<&str>) -> Option<u64>
    ensures { result ≡ seed_given (option_map (λ s. s.now) value.entry) }
{
    match value {
        Some(word) => read_number(word),
        None => Some(1),
    }
}

/// Whether a flag is given, by its value.
pub(crate) fn is_given(value: Option<&str>) -> bool
    ensures { result ≡ is_given (option_map (λ s. s.now) value.entry) }
{
    match value {
        Some(word) => word == "true",
        None => false,
    }
}

// The place of the first style of a name.
fn place_of(styles: &[Style], name: &str) -> Option<usize>
    ensures { result ≡ place_of (map (λ s. s.chooser.name) styles.now) name.now }
{
    let mut place = 0;
    let mut rest = styles;
    while let Some((style, after)) = rest.split_first() {
        if style.chooser.name().items() == name.as_bytes() {
            return Some(place);
        }
        place += 1;
        rest = after;
    }
    None
}

/// The place of the style that a value asks for, of the first where there is none.
pub(crate) fn style_given(styles: &[Style], value: Option<&str>) -> Option<usize>
    ensures { result ≡ style_given (map (λ s. s.chooser.name) styles.now) (option_map (λ s. s.now) value.entry) }
{
    match value {
        Some(word) => place_of(styles, word),
        None => Some(0),
    }
}

/// The number that a value writes.
pub(crate) fn number_given(value: Option<&str>) -> Option<u64>
    ensures { result ≡ option_and_then number_of (option_map (λ s. s.now) value.entry) }
{
    match value {
        Some(word) => read_number(word),
        None => None,
    }
}

/// The number of instances that a value asks for.
pub(crate) fn count_given(value: Option<&str>) -> Option<MadeCount>
    ensures { result ≡ option_and_then count_in (option_map (λ s. s.now) value.entry) }
{
    match value {
        Some(word) => read_count(word),
        None => None,
    }
}

/// The number of decimals that a value asks for, 0 where there is none.
pub(crate) fn decimals_given(value: Option<&str>) -> Option<u32>
    ensures { result ≡ decimals_given (option_map (λ s. s.now) value.entry) }
{
    match value {
        Some(word) => read_decimals(word),
        None => Some(0),
    }
}
