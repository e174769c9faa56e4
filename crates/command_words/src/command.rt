//! The command that words give.

ghost use Rattle.clap.specs.Words.{found_of, rows_of};
ghost use Rattle.command_words.specs.Arguments.{given_by};
ghost use Rattle.command_words.specs.Command.{IsOfStyle, check, check_app, check_in, command_of, help, make_app, make_in, names_in, route, route_app, topic_of, wanted_in};
ghost use Rattle.command_words.specs.Seen.{Reads, check_seen, command_seen, seen};
ghost use Rattle.std.specs.Prelude.{◌≡◌, ◌<◌, ℕ, length, map, option_map, IfOk};

use crate::draw::{Draw, draw_given};
use crate::import::{Import, import_given};
use crate::number_word::{MadeCount, RowCount, TryCount};
use crate::parser::{check_parser, make_parser, matches_in, route_parser, value_of};
use crate::topic::{Topic, topic_of};
use crate::values::{
    count_given, is_given, number_given, rows_given, seed_given, style_given, tries_given,
};
use crate::word::Word;
use choose_core::Style;
use clap::ArgMatches;
use std::alloc::Global;

/// How a design is to be laid out: the seed of its annealing, the number of rows, 1 to 512, if one is asked for, of how many placements,
/// 1 to 64, the best is taken, whether channels without vertical constraints are to be routed by the left edges of their nets, whether
/// the terminals of the PARENT become ports, and whether cells and nets get labels.
#[derive(Clone, Copy, Debug)]
pub struct Wanted {
    pub seed: u64,
    pub rows: Option<RowCount>,
    pub tries: TryCount,
    pub edge: bool,
    pub ports: bool,
    pub labels: bool,
}

/// Where a design comes from.
#[derive(Clone, Copy, Debug)]
pub enum Source<'a> {
    /// The file of this name.
    File(&'a str),
    /// It is made from this seed, with so many instances.
    Made(u64, MadeCount),
}

/// The command to route a design: where the design comes from, the names of the rules file and of the file to write, how it is to be laid out, and
/// the place of the style that chooses, from 0 on, whether there are to be no notes, and whether it is to be told how far the job has come.
#[derive(Clone, Copy, Debug)]
pub struct Route<'a> {
    pub design: Source<'a>,
    pub rules: &'a str,
    pub out: &'a str,
    pub wanted: Wanted,
    pub style: usize,
    pub quiet: bool,
    pub progress: bool,
}

/// The command to check a layout: the names of the design's file, of the rules file and of the layout's file, that of the file to
/// write markers of the findings to, if there is to be one, whether the terminals of the PARENT are to be ports, whether labels
/// tell which calls are cells, and whether there are to be no notes.
#[derive(Clone, Copy, Debug)]
pub struct Check<'a> {
    pub design: &'a str,
    pub rules: &'a str,
    pub cif: &'a str,
    pub markers: Option<&'a str>,
    pub ports: bool,
    pub labels: bool,
    pub quiet: bool,
}

/// A command, and what its arguments are.
#[derive(Clone, Copy, Debug)]
pub enum Command<'a> {
    /// To route a design, of a file or made.
    Route(Route<'a>),
    /// To check a layout.
    Check(Check<'a>),
    /// To draw a picture of a layout.
    Draw(Draw<'a>),
    /// To import a netlist.
    Import(Import<'a>),
    /// To print a text of help.
    Help(Topic),
}

/// Why words gave no command.
#[derive(Clone, Copy, Debug, PartialEq, Eq)]
pub enum WordsFault {
    /// They are no command.
    Usage,
    /// Memory ran out.
    Memory,
}

// How a design is to be laid out by accepted words.
fn wanted_of<'a>(matches: &ArgMatches<'a>) -> Option<Wanted>
    ensures { result ≡ wanted_in (rows_of (found_of matches.now)) }
{
    Some(Wanted {
        seed: seed_given(value_of(matches, "seed"))?,
        rows: rows_given(value_of(matches, "rows"))?,
        tries: tries_given(value_of(matches, "tries"))?,
        edge: is_given(value_of(matches, "edge")),
        ports: is_given(value_of(matches, "ports")),
        labels: is_given(value_of(matches, "labels")),
    })
}

// What accepted words give.
fn route_of<'a>(styles: &[Style], matches: &ArgMatches<'a>) -> Option<Route<'a>>
    ensures { option_map seen result ≡ names_in (map (λ s. s.chooser.name) styles.now) (rows_of (found_of matches.now)) }
{
    Some(Route {
        design: Source::File(value_of(matches, "design")?),
        rules: value_of(matches, "rules")?,
        out: value_of(matches, "out")?,
        wanted: wanted_of(matches)?,
        style: style_given(styles, value_of(matches, "style"))?,
        quiet: is_given(value_of(matches, "quiet")),
        progress: is_given(value_of(matches, "progress")),
    })
}

// What words give `route`.
fn read_route<'w>(
    alloc: Global,
    styles: &[Style],
    words: &'w [Word],
) -> Result<Route<'w>, WordsFault>
    ensures { Reads seen result (given_by route_app (names_in (map (λ s. s.chooser.name) styles.now)) words.now) }
{
    let Ok(parser) = route_parser(alloc) else {
        return Err(WordsFault::Memory);
    };
    match matches_in(parser, words) {
        Ok(matches) => match route_of(styles, &matches) {
            Some(route) => Ok(route),
            None => Err(WordsFault::Usage),
        },
        Err(fault) => Err(fault),
    }
}

// What accepted words give.
fn check_of<'a>(matches: &ArgMatches<'a>) -> Option<Check<'a>>
    ensures { option_map check_seen result ≡ check_in (rows_of (found_of matches.now)) }
{
    Some(Check {
        design: value_of(matches, "design")?,
        rules: value_of(matches, "rules")?,
        cif: value_of(matches, "cif")?,
        markers: value_of(matches, "markers"),
        ports: is_given(value_of(matches, "ports")),
        labels: is_given(value_of(matches, "labels")),
        quiet: is_given(value_of(matches, "quiet")),
    })
}

// What words give `check`.
fn read_check<'w>(alloc: Global, words: &'w [Word]) -> Result<Check<'w>, WordsFault>
    ensures { Reads check_seen result (given_by check_app check_in words.now) }
{
    let Ok(parser) = check_parser(alloc) else {
        return Err(WordsFault::Memory);
    };
    match matches_in(parser, words) {
        Ok(matches) => match check_of(&matches) {
            Some(check) => Ok(check),
            None => Err(WordsFault::Usage),
        },
        Err(fault) => Err(fault),
    }
}

// What accepted words of `make` give.
fn make_of<'a>(matches: &ArgMatches<'a>) -> Option<Route<'a>>
    ensures { option_map seen result ≡ make_in (rows_of (found_of matches.now)) }
{
    let seed = number_given(value_of(matches, "seed"))?;
    let count = count_given(value_of(matches, "count"))?;
    let tries = tries_given(value_of(matches, "tries"))?;
    Some(Route {
        design: Source::Made(seed, count),
        rules: value_of(matches, "rules")?,
        out: value_of(matches, "out")?,
        wanted: Wanted {
            seed,
            rows: None,
            tries,
            edge: false,
            ports: false,
            labels: false,
        },
        style: 0,
        quiet: is_given(value_of(matches, "quiet")),
        progress: is_given(value_of(matches, "progress")),
    })
}

// What words give `make`.
fn read_make<'w>(alloc: Global, words: &'w [Word]) -> Result<Route<'w>, WordsFault>
    ensures { Reads seen result (given_by make_app make_in words.now) }
{
    let Ok(parser) = make_parser(alloc) else {
        return Err(WordsFault::Memory);
    };
    match matches_in(parser, words) {
        Ok(matches) => match make_of(&matches) {
            Some(route) => Ok(route),
            None => Err(WordsFault::Usage),
        },
        Err(fault) => Err(fault),
    }
}

// The command to route that words give.
fn route_given<'w>(
    alloc: Global,
    styles: &[Style],
    words: &'w [Word],
) -> Result<Command<'w>, WordsFault>
    requires { 0 < length styles.now }
    ensures reads { Reads command_seen result (option_map route (given_by route_app (names_in (map (λ s. s.chooser.name) styles.now)) words.now)) }
    ensures style { IfOk result (λ command. IsOfStyle (length styles.now) (command_seen command)) }
{
    match read_route(alloc, styles, words) {
        Ok(names) => Ok(Command::Route(names)),
        Err(fault) => Err(fault),
    }
}

// The command to make a design and route it that words give.
fn make_given<'w>(alloc: Global, words: &'w [Word]) -> Result<Command<'w>, WordsFault>
    ensures reads { Reads command_seen result (option_map route (given_by make_app make_in words.now)) }
    ensures style { IfOk result (λ command. (count : ℕ) → 0 < count → IsOfStyle count (command_seen command)) }
{
    match read_make(alloc, words) {
        Ok(names) => Ok(Command::Route(names)),
        Err(fault) => Err(fault),
    }
}

// The command to check that words give.
fn check_given<'w>(alloc: Global, words: &'w [Word]) -> Result<Command<'w>, WordsFault>
    ensures reads { Reads command_seen result (option_map check (given_by check_app check_in words.now)) }
    ensures style { IfOk result (λ command. (count : ℕ) → IsOfStyle count (command_seen command)) }
{
    match read_check(alloc, words) {
        Ok(names) => Ok(Command::Check(names)),
        Err(fault) => Err(fault),
    }
}

// The command to print a text of help that words give.
fn help_given<'w>(words: &'w [Word]) -> Result<Command<'w>, WordsFault>
    ensures reads { Reads command_seen result (option_map help (topic_of words.now)) }
    ensures style { IfOk result (λ command. (count : ℕ) → IsOfStyle count (command_seen command)) }
{
    match topic_of(words) {
        Some(topic) => Ok(Command::Help(topic)),
        None => Err(WordsFault::Usage),
    }
}

/// The command that the words give: its name and what its arguments are, of which a style is the place of the first of its name. It errs
/// with Usage exactly where there is none, and with Memory where memory runs out.
#[tactic(auto, unfolding(crate::specs::Command::command_of))]
pub fn read_command<'w>(
    alloc: Global,
    styles: &[Style],
    words: &'w [Word],
) -> Result<Command<'w>, WordsFault>
    requires { 0 < length styles.now }
    ensures reads { Reads command_seen result (command_of (map (λ s. s.chooser.name) styles.now) words.now) }
    ensures style { IfOk result (λ command. IsOfStyle (length styles.now) (command_seen command)) }
{
    let Some(word) = words.first() else {
        return Err(WordsFault::Usage);
    };
    if word.text() == "route" {
        return route_given(alloc, styles, words);
    }
    if word.text() == "check" {
        return check_given(alloc, words);
    }
    if word.text() == "make" {
        return make_given(alloc, words);
    }
    if word.text() == "draw" {
        return draw_given(alloc, words);
    }
    if word.text() == "import" {
        return import_given(alloc, words);
    }
    help_given(words)
}
