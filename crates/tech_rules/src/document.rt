//! A rules file as a table of TOML, and the values at its keys.
ghost use Rattle.geom_core.specs.LayerText.{is_layer_text};
ghost use Rattle.std.specs.List.{list_all};
ghost use Rattle.std.specs.Option.{option_copied, option_map};
ghost use Rattle.std.specs.Prelude.{◌≡◌, true, IfOk, IfSome};
ghost use Rattle.std.specs.Result.{result_map_both};
ghost use Rattle.tech_rules.specs.Document.{data_of, decimals_of, document_of, number_of, number_within, start_in, start_named, start_of, string_of, text_where};
ghost use Rattle.tech_rules.specs.Rules.{is_yal_code, is_yal_word};
ghost use Rattle.tech_rules.specs.Ranges.{AreDecimals, IsWithin};
ghost use Rattle.toml.specs.Data.{get_member};
ghost use Rattle.toml.specs.View.{table_view, view};

use crate::{Key, RulesFault, StartBy};
use geom_core::LayerName;
use limits::{MOST_DECIMALS, MOST_WORD};
use std::alloc::{AllocError, Global};
use toml::{Table, Value};

/// The table of a rules file, or None where the bytes are no UTF-8 text of TOML. The one error is want of memory.
pub(crate) fn table_of(alloc: Global, bytes: &[u8]) -> Result<Option<Table>, AllocError>
    ensures { IfOk result (λ t. option_map table_view t ≡ document_of bytes.now) }
{
    let Ok(text) = str::from_utf8(bytes) else {
        return Ok(None);
    };
    match toml::table_from_str(alloc, text) {
        Ok(table) => Ok(Some(table)),
        Err(error) => {
            if error.is_memory() {
                return Err(AllocError);
            }
            Ok(None)
        }
    }
}

/// The number at a key, if it is an integer from `low` to `high`. Takes no memory.
#[tactic(auto, unfolding(crate::specs::Document::number_of))]
pub(crate) fn number(table: &Table, key: Key, low: u32, high: u32) -> Result<u32, RulesFault>
    ensures value { result ≡ number_of (table_view table.now) key low high }
    ensures within { IfOk result (IsWithin low high) }
{
    match value_at(table, key) {
        Some(value) => match integer_within(value, low, high) {
            Some(number) => Ok(number),
            None => Err(RulesFault::Range(key)),
        },
        None => Err(RulesFault::Missing(key)),
    }
}

/// How many decimals the numbers of a design have: the number at its key from version 2 on, and none before. Takes no memory.
#[tactic(auto, unfolding(crate::specs::Document::decimals_of))]
pub(crate) fn decimals(table: &Table, version: u32) -> Result<u32, RulesFault>
    ensures value { result ≡ decimals_of (table_view table.now) version }
    ensures within { IfOk result (AreDecimals version) }
{
    if version == 1 {
        return Ok(0);
    }
    number(table, Key::Decimals, 0, MOST_DECIMALS)
}

/// The layer at a key, if its text is a layer's name. Takes no memory.
#[tactic(auto, unfolding(crate::specs::Document::string_of))]
pub(crate) fn layer(table: &Table, key: Key) -> Result<LayerName, RulesFault>
    ensures value { result ≡ string_of (table_view table.now) key is_layer_text }
    ensures valid { IfOk result (λ l. is_layer_text l ≡ true) }
{
    match value_at(table, key) {
        Some(value) => match layer_of(value) {
            Some(layer) => Ok(layer),
            None => Err(RulesFault::Range(key)),
        },
        None => Err(RulesFault::Missing(key)),
    }
}

/// The word at a key, if it is a text of 1 to 32 ASCII letters, digits or `_`. Takes no memory.
#[tactic(auto, unfolding(crate::specs::Document::string_of))]
pub(crate) fn word<'t>(table: &'t Table, key: Key) -> Result<&'t [u8], RulesFault>
    ensures value { result_map_both (λ w. w.now) (λ f. f) result ≡ string_of (table_view table.now) key is_yal_word }
    ensures valid { IfOk result (λ w. is_yal_word w.now ≡ true) }
{
    match value_at(table, key) {
        Some(value) => match word_of(value) {
            Some(word) => Ok(word),
            None => Err(RulesFault::Range(key)),
        },
        None => Err(RulesFault::Missing(key)),
    }
}

/// How start rows are filled: by the text at its key, "width" or "count", and by width where nothing stands there. Takes no memory.
#[tactic(auto, unfolding(crate::specs::Document::start_of))]
pub(crate) fn start_by(table: &Table) -> Result<StartBy, RulesFault>
    ensures { result ≡ start_of (table_view table.now) }
{
    match value_at(table, Key::AnnealStart) {
        Some(value) => match start_in(value) {
            Some(start) => Ok(start),
            None => Err(RulesFault::Range(Key::AnnealStart)),
        },
        None => Ok(StartBy::Width),
    }
}

fn start_in(value: &Value) -> Option<StartBy>
    ensures { result ≡ start_in (view value.now) }
{
    start_named(value.as_str()?)
}

fn start_named(text: &str) -> Option<StartBy>
    ensures { result ≡ start_named text.now }
{
    match text {
        "width" => Some(StartBy::Width),
        "count" => Some(StartBy::Count),
        _ => None,
    }
}

fn integer_within(value: &Value, low: u32, high: u32) -> Option<u32>
    ensures value { result ≡ number_within low high (view value.now) }
    ensures within { IfSome result (IsWithin low high) }
{
    let number = u32::try_from(value.as_integer()?).ok()?;
    if low <= number && number <= high {
        Some(number)
    } else {
        None
    }
}

fn layer_of(value: &Value) -> Option<LayerName>
    ensures value { result ≡ text_where is_layer_text (view value.now) }
    ensures valid { IfSome result (λ l. is_layer_text l ≡ true) }
{
    LayerName::new(value.as_str()?.as_bytes())
}

fn word_of<'t>(value: &'t Value) -> Option<&'t [u8]>
    ensures value { option_copied result ≡ text_where is_yal_word (view value.now) }
    ensures valid { IfSome result (λ w. is_yal_word w.now ≡ true) }
{
    let word = value.as_str()?.as_bytes();
    if is_word(word) { Some(word) } else { None }
}

fn is_word(word: &[u8]) -> bool
    ensures { result ≡ is_yal_word word.now }
{
    !word.is_empty() && word.len() <= MOST_WORD && are_word_bytes(word)
}

fn are_word_bytes(word: &[u8]) -> bool
    ensures { result ≡ list_all is_yal_code word.now }
{
    word.iter().all(|byte| is_word_byte(*byte))
}

fn is_word_byte(byte: u8) -> bool
    ensures { result ≡ is_yal_code byte }
{
    byte.is_ascii_alphanumeric() || byte == b'_'
}

// What stands at a key: None also where what should be its table is none.
fn value_at<'t>(table: &'t Table, key: Key) -> Option<&'t Value>
    ensures { option_map (λ v. view v.now) result ≡ data_of (table_view table.now) key }
{
    match key.section() {
        None => member_of(table, key.word()),
        Some(section) => match member_of(table, section) {
            Some(inner) => match inner.as_table() {
                Some(inner) => member_of(inner, key.word()),
                None => None,
            },
            None => None,
        },
    }
}

fn member_of<'t>(table: &'t Table, word: &str) -> Option<&'t Value>
    ensures { option_map (λ v. view v.now) result ≡ get_member word.now (table_view table.now) }
{
    table.get(word)
}
