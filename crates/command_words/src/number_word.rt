//! The numbers that words ask for.

ghost use Rattle.command_words.specs.NumberWord.{count_in, decimals_in, number_of, rows_in, tries_in};
ghost use Rattle.std.specs.Prelude.{◌≡◌, ◌≤◌};

use limits::{MOST_DECIMALS, MOST_INSTANCES, MOST_ROWS};
use read_base::number_within;
use std::marker::Model;

/// The tries that a command may ask for.
pub const MOST_TRIES: u32 = 64;

/// The number below 2^64 that a word of one to twenty digits writes. Takes no memory.
#[tactic(auto, unfolding(crate::specs::NumberWord::number_of))]
pub(crate) fn read_number(word: &str) -> Option<u64>
    ensures { result ≡ number_of word.now }
{
    let text = word.as_bytes();
    if text.is_empty() || text.len() > 20 {
        return None;
    }
    number_within(u64::MAX, text)
}

/// A number of rows, 1 to 512, which contracts see as the number.
#[derive(Clone, Copy, Debug, PartialEq, Eq)]
pub struct RowCount {
    rows: u32,
}

impl Model for RowCount {
    ghost use Rattle.std.specs.Prelude.{ℕ};
    ghost use Rattle.command_words.specs.RowCountView.{count_in, IsCount, from_count};

    ghost Value = { ℕ };

    ghost view = { count_in };

    ghost invariant = { IsCount };

    ghost inverse = { from_count };
}

impl RowCount {
    /// The number. Takes no memory.
    pub fn get(self) -> u32
        ensures is { result ≡ self }
        ensures some { 1 ≤ result }
        ensures few { result ≤ MOST_ROWS }
    {
        self.rows
    }
}

/// The number of rows, 1 to 512, that a word of one to twenty digits asks for. Takes no memory.
#[tactic(auto, unfolding(crate::specs::NumberWord::rows_in))]
pub(crate) fn read_rows(word: &str) -> Option<RowCount>
    ensures { result ≡ rows_in word.now }
{
    let rows = read_number(word)?;
    if rows < 1 || rows > MOST_ROWS as u64 {
        return None;
    }
    Some(RowCount { rows: rows as u32 })
}

/// A number of tries, 1 to 64, which contracts see as the number.
#[derive(Clone, Copy, Debug, PartialEq, Eq)]
pub struct TryCount {
    tries: u32,
}

impl Model for TryCount {
    ghost use Rattle.std.specs.Prelude.{ℕ};
    ghost use Rattle.command_words.specs.TryCountView.{count_in, IsCount, from_count};

    ghost Value = { ℕ };

    ghost view = { count_in };

    ghost invariant = { IsCount };

    ghost inverse = { from_count };
}

impl TryCount {
    /// One try. Takes no memory.
    pub fn one() -> TryCount
        ensures { result ≡ 1 }
    {
        TryCount { tries: 1 }
    }

    /// The number. Takes no memory.
    pub fn get(self) -> u32
        ensures is { result ≡ self }
        ensures some { 1 ≤ result }
        ensures few { result ≤ MOST_TRIES }
    {
        self.tries
    }
}

/// The number of tries, 1 to 64, that a word of one to twenty digits asks for. Takes no memory.
#[tactic(auto, unfolding(crate::specs::NumberWord::tries_in))]
pub(crate) fn read_tries(word: &str) -> Option<TryCount>
    ensures { result ≡ tries_in word.now }
{
    let tries = read_number(word)?;
    if tries < 1 || tries > u64::from(MOST_TRIES) {
        return None;
    }
    Some(TryCount {
        tries: tries as u32,
    })
}

/// A number of instances, 1 to 20,000, which contracts see as the number.
#[derive(Clone, Copy, Debug, PartialEq, Eq)]
pub struct MadeCount {
    instances: u32,
}

impl Model for MadeCount {
    ghost use Rattle.std.specs.Prelude.{ℕ};
    ghost use Rattle.command_words.specs.MadeCountView.{count_in, IsCount, from_count};

    ghost Value = { ℕ };

    ghost view = { count_in };

    ghost invariant = { IsCount };

    ghost inverse = { from_count };
}

impl MadeCount {
    /// The number. Takes no memory.
    pub fn get(self) -> u32
        ensures is { result ≡ self }
        ensures some { 1 ≤ result }
        ensures few { result ≤ MOST_INSTANCES }
    {
        self.instances
    }
}

/// The number of instances, 1 to 20,000, that a word of one to twenty digits asks for. Takes no memory.
#[tactic(auto, unfolding(crate::specs::NumberWord::count_in))]
pub(crate) fn read_count(word: &str) -> Option<MadeCount>
    ensures { result ≡ count_in word.now }
{
    let instances = read_number(word)?;
    if instances < 1 || instances > MOST_INSTANCES as u64 {
        return None;
    }
    Some(MadeCount {
        instances: instances as u32,
    })
}

/// The number of decimals, 0 to 4, that a word of one to twenty digits asks for. Takes no memory.
#[tactic(auto, unfolding(crate::specs::NumberWord::decimals_in))]
pub(crate) fn read_decimals(word: &str) -> Option<u32>
    ensures { result ≡ decimals_in word.now }
{
    let decimals = read_number(word)?;
    if decimals > u64::from(MOST_DECIMALS) {
        return None;
    }
    Some(decimals as u32)
}
