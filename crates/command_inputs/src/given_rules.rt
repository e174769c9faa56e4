//! Rules that a command is given or not.

ghost use Rattle.command_ends.specs.Answers.{Finds};
ghost use Rattle.command_ends.specs.Status.{ending_status};
ghost use Rattle.command_inputs.specs.Failures.{FileFails};
ghost use Rattle.command_inputs.specs.GivenRules.{GivenFail, rules_given, some_rules};
ghost use Rattle.command_inputs.specs.Reading.{Loads, OnlyRead, files};
ghost use Rattle.std.specs.Prelude.{◌≡◌, Some, option_map};

use crate::stages::load_rules;
use crate::texts::Texts;
use command_ends::Stop;
use shelf_io::Shelf;
use std::alloc::Global;
use tech_rules::Rules;

// The rules of a file that is given.
fn load_some_rules<S: Shelf>(
    alloc: Global,
    shelf: &mut S,
    name: &str,
    texts: &mut Texts,
) -> Result<Option<Rules>, Stop>
    ensures { Loads (λ rules. rules) some_rules (λ told. told name.now) (FileFails name.now) result
        (files (S.holds shelf.old) (S.read_faults shelf.old) (S.write_faults shelf.old)) (files (S.holds shelf.new) (S.read_faults shelf.new) (S.write_faults shelf.new)) }
{
    match load_rules(alloc, shelf, name, texts) {
        Ok(rules) => Ok(Some(rules)),
        Err(stop) => Err(stop),
    }
}

/// The rules of a file, if one is given. The text is kept, a refused one too. The files stay as they are; ReadFault comes only where the file's read count rose.
pub fn load_given_rules<S: Shelf>(
    alloc: Global,
    shelf: &mut S,
    name: Option<&str>,
    texts: &mut Texts,
) -> Result<Option<Rules>, Stop>
    ensures told { (said : _) → rules_given (option_map (λ n. n.now) name.entry) (S.holds shelf.old) ≡ Some said → Finds (λ rules. rules) result said }
    ensures read { OnlyRead (ending_status result) (GivenFail (option_map (λ n. n.now) name.entry))
        (files (S.holds shelf.old) (S.read_faults shelf.old) (S.write_faults shelf.old)) (files (S.holds shelf.new) (S.read_faults shelf.new) (S.write_faults shelf.new)) }
{
    match name {
        Some(name) => load_some_rules(alloc, shelf, name, texts),
        None => Ok(None),
    }
}
