//! What the words of a command ask for, done on the files of a shelf.

ghost use Rattle.command_inputs.specs.Reading.{files};
ghost use Rattle.command_words.specs.Command as asked;
ghost use Rattle.command_words.specs.Command.{IsOfStyle, command_of};
ghost use Rattle.command_words.specs.Seen.{command_seen};
ghost use Rattle.commands.specs.Carried.{Carried};
ghost use Rattle.commands.specs.Changes.{HasLaidOut};
ghost use Rattle.commands.specs.Done.{end_seen};
ghost use Rattle.commands.specs.Outcome.{AreKept};
ghost use Rattle.commands.specs.Verdict.{command_verdict};
ghost use Rattle.std.specs.Prelude.{◌≡◌, ◌<◌, ◌≤◌, [], Some, length, map};

use crate::done::Done;
use crate::drawing::draw;
use crate::heard::Heard;
use crate::importing::import;
use crate::judging::judge;
use crate::routing::route;
use choose_core::{Chooser, Chooses, Style};
use command_ends::{Refusal, Stop};
use command_words::{Command, Word, WordsFault, read_command};
use greedy_router::Routed;
use progress::Watch;
use shelf_io::Shelf;
use std::alloc::Global;

// Does a command. One that watches is told how far its job has come.
fn obey<S: Shelf, W: Watch>(
    alloc: Global,
    shelf: &mut S,
    command: &Command<'_>,
    styles: &[Style],
    heard: &mut Heard,
    kept: &mut Vec<Routed>,
    watch: &mut W,
) -> Result<Done, Stop>
    requires style { IsOfStyle (length styles.now) (command_seen command.now) }
    requires none { kept.old.items ≡ [] }
    ensures carried { Carried (Some (command_seen command.now)) (end_seen result) kept.new.items
        (files (S.holds shelf.old) (S.read_faults shelf.old) (S.write_faults shelf.old)) (files (S.holds shelf.new) (S.read_faults shelf.new) (S.write_faults shelf.new)) }
    ensures kept { (said : _) → command_verdict (command_seen command.now) (S.holds shelf.old) ≡ Some said → HasLaidOut (end_seen result)
        → AreKept styles.now (λ s. s.plan) (λ s. ⟦<Chooser as Chooses>⟧.answers s.chooser) (command_seen command.now) said kept.new.items }
    ensures goes { W.goes watch.old watch.new }
{
    match command {
        Command::Route(names) => route(alloc, shelf, names, styles, heard, kept, watch),
        Command::Check(names) => judge(alloc, shelf, names, heard),
        Command::Draw(names) => draw(alloc, shelf, names, heard),
        Command::Import(names) => import(alloc, shelf, names, heard),
        Command::Help(topic) => Ok(Done::Helped(*topic)),
    }
}

/// Does what words ask for. One that watches is told how far its job has come.
pub(crate) fn carry_out<S: Shelf, W: Watch>(
    alloc: Global,
    words: &[Word],
    shelf: &mut S,
    styles: &[Style],
    heard: &mut Heard,
    kept: &mut Vec<Routed>,
    watch: &mut W,
) -> Result<Done, Stop>
    requires some { 0 < length styles.now }
    requires few { length styles.now ≤ 16 }
    requires none { kept.old.items ≡ [] }
    ensures carried { Carried (command_of (map (λ s. s.chooser.name) styles.now) words.now) (end_seen result) kept.new.items
        (files (S.holds shelf.old) (S.read_faults shelf.old) (S.write_faults shelf.old)) (files (S.holds shelf.new) (S.read_faults shelf.new) (S.write_faults shelf.new)) }
    ensures kept { (command : asked.Command) (said : _) → command_of (map (λ s. s.chooser.name) styles.now) words.now ≡ Some command
        → command_verdict command (S.holds shelf.old) ≡ Some said → HasLaidOut (end_seen result)
        → AreKept styles.now (λ s. s.plan) (λ s. ⟦<Chooser as Chooses>⟧.answers s.chooser) command said kept.new.items }
    ensures goes { W.goes watch.old watch.new }
{
    match read_command(alloc, styles, words) {
        Ok(command) => obey(alloc, shelf, &command, styles, heard, kept, watch),
        Err(WordsFault::Usage) => Err(Stop::Refused(Refusal::Usage)),
        Err(WordsFault::Memory) => Err(Stop::Refused(Refusal::Memory)),
    }
}
