//! The command to import a netlist.

ghost use Rattle.clap.specs.Words.{found_of, rows_of};
ghost use Rattle.command_words.specs.Arguments.{given_by};
ghost use Rattle.command_words.specs.Command.{IsOfStyle, import};
ghost use Rattle.command_words.specs.Importing.{import_app, import_in};
ghost use Rattle.command_words.specs.Seen.{Reads, command_seen, import_seen};
ghost use Rattle.std.specs.Prelude.{◌≡◌, ℕ, option_map, IfOk};

use crate::command::{Command, WordsFault};
use crate::parser::{import_parser, matches_in, value_of};
use crate::values::{decimals_given, is_given};
use crate::word::Word;
use clap::ArgMatches;
use std::alloc::Global;

/// The command to import a netlist: the names of the netlist's file, of the file of its cells' modules and of the file to write, up to how many
/// decimals, 0 to 4, the numbers of the cells have, and whether there are to be no notes.
#[derive(Clone, Copy, Debug)]
pub struct Import<'a> {
    pub netlist: &'a str,
    pub cells: &'a str,
    pub out: &'a str,
    pub decimals: u32,
    pub quiet: bool,
}

// What accepted words give.
fn import_of<'a>(matches: &ArgMatches<'a>) -> Option<Import<'a>>
    ensures { option_map import_seen result ≡ import_in (rows_of (found_of matches.now)) }
{
    Some(Import {
        netlist: value_of(matches, "netlist")?,
        cells: value_of(matches, "cells")?,
        out: value_of(matches, "out")?,
        decimals: decimals_given(value_of(matches, "decimals"))?,
        quiet: is_given(value_of(matches, "quiet")),
    })
}

// What words give `import`.
fn read_import<'w>(alloc: Global, words: &'w [Word]) -> Result<Import<'w>, WordsFault>
    ensures { Reads import_seen result (given_by import_app import_in words.now) }
{
    let Ok(parser) = import_parser(alloc) else {
        return Err(WordsFault::Memory);
    };
    match matches_in(parser, words) {
        Ok(matches) => match import_of(&matches) {
            Some(import) => Ok(import),
            None => Err(WordsFault::Usage),
        },
        Err(fault) => Err(fault),
    }
}

/// The command to import that words give.
pub(crate) fn import_given<'w>(alloc: Global, words: &'w [Word]) -> Result<Command<'w>, WordsFault>
    ensures reads { Reads command_seen result (option_map import (given_by import_app import_in words.now)) }
    ensures style { IfOk result (λ command. (count : ℕ) → IsOfStyle count (command_seen command)) }
{
    match read_import(alloc, words) {
        Ok(names) => Ok(Command::Import(names)),
        Err(fault) => Err(fault),
    }
}
