//! The command to draw a picture of a layout.

ghost use Rattle.clap.specs.Words.{found_of, rows_of};
ghost use Rattle.command_words.specs.Arguments.{given_by};
ghost use Rattle.command_words.specs.Command.{IsOfStyle, draw};
ghost use Rattle.command_words.specs.Drawing.{draw_app, draw_in};
ghost use Rattle.command_words.specs.Seen.{Reads, command_seen, draw_seen};
ghost use Rattle.std.specs.Prelude.{◌≡◌, ℕ, option_map, IfOk};

use crate::box_word::part_given;
use crate::command::{Command, WordsFault};
use crate::parser::{draw_parser, matches_in, value_of};
use crate::values::is_given;
use crate::word::Word;
use clap::ArgMatches;
use geom_core::Rect;
use std::alloc::Global;

/// The command to draw a picture of a layout: the names of the layout's file and of the file to write the picture to, the part that is to be
/// shown, in half centimicrons, if it is not all, the name of the rules file whose layers the legend names, if there is one, and whether there
/// are to be no notes.
#[derive(Clone, Copy, Debug)]
pub struct Draw<'a> {
    pub cif: &'a str,
    pub out: &'a str,
    pub part: Option<Rect>,
    pub rules: Option<&'a str>,
    pub quiet: bool,
}

// What accepted words give.
fn draw_of<'a>(matches: &ArgMatches<'a>) -> Option<Draw<'a>>
    ensures { option_map draw_seen result ≡ draw_in (rows_of (found_of matches.now)) }
{
    Some(Draw {
        cif: value_of(matches, "cif")?,
        out: value_of(matches, "out")?,
        part: part_given(value_of(matches, "box"))?,
        rules: value_of(matches, "rules"),
        quiet: is_given(value_of(matches, "quiet")),
    })
}

// What words give `draw`.
fn read_draw<'w>(alloc: Global, words: &'w [Word]) -> Result<Draw<'w>, WordsFault>
    ensures { Reads draw_seen result (given_by draw_app draw_in words.now) }
{
    let Ok(parser) = draw_parser(alloc) else {
        return Err(WordsFault::Memory);
    };
    match matches_in(parser, words) {
        Ok(matches) => match draw_of(&matches) {
            Some(draw) => Ok(draw),
            None => Err(WordsFault::Usage),
        },
        Err(fault) => Err(fault),
    }
}

/// The command to draw that words give.
pub(crate) fn draw_given<'w>(alloc: Global, words: &'w [Word]) -> Result<Command<'w>, WordsFault>
    ensures reads { Reads command_seen result (option_map draw (given_by draw_app draw_in words.now)) }
    ensures style { IfOk result (λ command. (count : ℕ) → IsOfStyle count (command_seen command)) }
{
    match read_draw(alloc, words) {
        Ok(names) => Ok(Command::Draw(names)),
        Err(fault) => Err(fault),
    }
}
