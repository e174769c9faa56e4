//! The parsers of the commands' words.

ghost use Rattle.clap.specs.Words.{app_of, first_of, found_of, is_simple, is_simple_and_free, rows_of, rule_of, with_rule};
ghost use Rattle.command_words.specs.Arguments.{flag_rule, option_rule, positional_rule, progress_rule, quiet_rule};
ghost use Rattle.command_words.specs.Command.{check_app, make_app, named_app, route_app, seeded_app};
ghost use Rattle.command_words.specs.Drawing.{draw_app, drawing_app};
ghost use Rattle.command_words.specs.Importing.{import_app, importing_app};
ghost use Rattle.command_words.specs.Taken.{IsTaken};
ghost use Rattle.std.specs.Prelude.{◌≡◌, codes, false, option_map, true, IfOk};

use crate::command::WordsFault;
use crate::word::Word;
use clap::error::ErrorKind;
use clap::{Arg, ArgAction, ArgMatches, Command as Parser};
use std::alloc::{AllocError, Global};

// A name that a command has to be given.
fn positional<'a>(alloc: Global, id: &'a str) -> Arg<'a>
    ensures rule { rule_of result ≡ positional_rule id.entry.now }
    ensures local { result.global ≡ false }
{
    Arg::new(alloc, id).required(true)
}

// An option that has a value.
fn option<'a>(alloc: Global, id: &'a str) -> Arg<'a>
    ensures rule { rule_of result ≡ option_rule id.entry.now }
    ensures local { result.global ≡ false }
{
    Arg::new(alloc, id).long(id)
}

// A word that is given or not.
fn flag<'a>(alloc: Global, id: &'a str) -> Arg<'a>
    ensures rule { rule_of result ≡ flag_rule id.entry.now }
    ensures local { result.global ≡ false }
{
    Arg::new(alloc, id).long(id).action(ArgAction::SetTrue)
}

// The wish to be told how far the job has come.
fn progress_flag<'a>(alloc: Global) -> Arg<'a>
    ensures rule { rule_of result ≡ progress_rule }
    ensures local { result.global ≡ false }
{
    flag(alloc, "progress")
}

// The wish for no notes.
fn quiet_flag<'a>(alloc: Global) -> Arg<'a>
    ensures rule { rule_of result ≡ quiet_rule }
    ensures local { result.global ≡ false }
{
    flag(alloc, "quiet").short('q')
}

// The command with one more argument.
fn with_arg<'a>(command: Parser<'a>, arg: Arg<'a>) -> Result<Parser<'a>, AllocError>
    requires { arg.global ≡ false }
    ensures { IfOk result (λ c. app_of c ≡ with_rule (app_of command.entry) (rule_of arg.entry)) }
{
    command.arg(arg)
}

// The command of this name with its three names, of which this is the last.
fn named_parser<'a>(alloc: Global, name: &'a str, last: &'a str) -> Result<Parser<'a>, AllocError>
    ensures { IfOk result (λ c. app_of c ≡ named_app name.entry.now last.entry.now) }
{
    let command = Parser::new(alloc, name);
    let command = with_arg(command, positional(alloc, "design"))?;
    let command = with_arg(command, positional(alloc, "rules"))?;
    with_arg(command, positional(alloc, last))
}

// The command with the options of a seed, of rows, of a style and of tries.
fn with_options<'a>(alloc: Global, command: Parser<'a>) -> Result<Parser<'a>, AllocError>
    ensures { IfOk result (λ c. app_of c ≡ with_rule (with_rule (with_rule (with_rule (app_of command.entry) (option_rule (codes "seed"))) (option_rule (codes "rows"))) (option_rule (codes "style")))
        (option_rule (codes "tries"))) }
{
    let command = with_arg(command, option(alloc, "seed"))?;
    let command = with_arg(command, option(alloc, "rows"))?;
    let command = with_arg(command, option(alloc, "style"))?;
    with_arg(command, option(alloc, "tries"))
}

// The command with the wishes for left edges, for ports, for labels and to be told of progress.
fn with_flags<'a>(alloc: Global, command: Parser<'a>) -> Result<Parser<'a>, AllocError>
    ensures { IfOk result (λ c. app_of c ≡ with_rule (with_rule (with_rule (with_rule (app_of command.entry) (flag_rule (codes "edge"))) (flag_rule (codes "ports"))) (flag_rule (codes "labels"))) progress_rule) }
{
    let command = with_arg(command, flag(alloc, "edge"))?;
    let command = with_arg(command, flag(alloc, "ports"))?;
    let command = with_arg(command, flag(alloc, "labels"))?;
    with_arg(command, progress_flag(alloc))
}

/// The command `route` with its arguments. The one error is want of memory.
pub(crate) fn route_parser<'a>(alloc: Global) -> Result<Parser<'a>, AllocError>
    ensures { IfOk result (λ c. app_of c ≡ route_app) }
{
    let command = named_parser(alloc, "route", "out")?;
    let command = with_options(alloc, command)?;
    let command = with_flags(alloc, command)?;
    with_arg(command, quiet_flag(alloc))
}

/// The command `check` with its arguments. The one error is want of memory.
pub(crate) fn check_parser<'a>(alloc: Global) -> Result<Parser<'a>, AllocError>
    ensures { IfOk result (λ c. app_of c ≡ check_app) }
{
    let command = named_parser(alloc, "check", "cif")?;
    let command = with_arg(command, option(alloc, "markers"))?;
    let command = with_arg(command, flag(alloc, "ports"))?;
    let command = with_arg(command, flag(alloc, "labels"))?;
    with_arg(command, quiet_flag(alloc))
}

// The command `make` with its seed, its number and its two names.
fn seeded_parser<'a>(alloc: Global) -> Result<Parser<'a>, AllocError>
    ensures { IfOk result (λ c. app_of c ≡ seeded_app) }
{
    let command = Parser::new(alloc, "make");
    let command = with_arg(command, positional(alloc, "seed"))?;
    let command = with_arg(command, positional(alloc, "count"))?;
    let command = with_arg(command, positional(alloc, "rules"))?;
    with_arg(command, positional(alloc, "out"))
}

/// The command `make` with its arguments. The one error is want of memory.
pub(crate) fn make_parser<'a>(alloc: Global) -> Result<Parser<'a>, AllocError>
    ensures { IfOk result (λ c. app_of c ≡ make_app) }
{
    let command = seeded_parser(alloc)?;
    let command = with_arg(command, option(alloc, "tries"))?;
    let command = with_arg(command, progress_flag(alloc))?;
    with_arg(command, quiet_flag(alloc))
}

// The command `draw` with its two names.
fn drawing_parser<'a>(alloc: Global) -> Result<Parser<'a>, AllocError>
    ensures { IfOk result (λ c. app_of c ≡ drawing_app) }
{
    let command = Parser::new(alloc, "draw");
    let command = with_arg(command, positional(alloc, "cif"))?;
    with_arg(command, positional(alloc, "out"))
}

/// The command `draw` with its arguments. The one error is want of memory.
pub(crate) fn draw_parser<'a>(alloc: Global) -> Result<Parser<'a>, AllocError>
    ensures { IfOk result (λ c. app_of c ≡ draw_app) }
{
    let command = drawing_parser(alloc)?;
    let command = with_arg(command, option(alloc, "box"))?;
    let command = with_arg(command, option(alloc, "rules"))?;
    with_arg(command, quiet_flag(alloc))
}

// The command `import` with its three names.
fn importing_parser<'a>(alloc: Global) -> Result<Parser<'a>, AllocError>
    ensures { IfOk result (λ c. app_of c ≡ importing_app) }
{
    let command = Parser::new(alloc, "import");
    let command = with_arg(command, positional(alloc, "netlist"))?;
    let command = with_arg(command, positional(alloc, "cells"))?;
    with_arg(command, positional(alloc, "out"))
}

/// The command `import` with its arguments. The one error is want of memory.
pub(crate) fn import_parser<'a>(alloc: Global) -> Result<Parser<'a>, AllocError>
    ensures { IfOk result (λ c. app_of c ≡ import_app) }
{
    let command = importing_parser(alloc)?;
    let command = with_arg(command, option(alloc, "decimals"))?;
    with_arg(command, quiet_flag(alloc))
}

/// What a command makes of words, of which the first is its name. It errs with Usage exactly where it refuses them, and with Memory where
/// memory runs out.
pub(crate) fn matches_in<'w>(
    parser: Parser<'w>,
    words: &'w [Word],
) -> Result<ArgMatches<'w>, WordsFault>
    requires simple { is_simple (app_of parser) ≡ true }
    requires free { is_simple_and_free (app_of parser) ≡ true }
    ensures { IsTaken (λ m. rows_of (found_of m)) (app_of parser.entry) words.entry.now result }
{
    match parser.try_get_matches_from(words) {
        Ok(matches) => Ok(matches),
        Err(error) => match error.kind() {
            ErrorKind::OutOfMemory => Err(WordsFault::Memory),
            _ => Err(WordsFault::Usage),
        },
    }
}

/// The value of an argument. Takes no memory.
pub(crate) fn value_of<'a>(matches: &ArgMatches<'a>, id: &str) -> Option<&'a str>
    ensures { option_map (λ s. s.now) result ≡ first_of id.now (rows_of (found_of matches.now)) }
{
    matches.get_str(id)
}
