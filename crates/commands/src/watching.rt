//! How far a job has come, told on the sink for notes as it goes.

ghost use Rattle.command_words.specs.Command as asked;
ghost use Rattle.command_words.specs.Command.{command_of, is_quiet};
ghost use Rattle.commands.specs.Noted.{NotedSo};
ghost use Rattle.std.specs.Prelude.{◌≡◌, ◌<◌, Some, false, length, map, true};

use choose_core::Style;
use command_words::{Command, Word, read_command};
use progress::{Step, Watch};
use shelf_io::LineWord::{Number, Text};
use shelf_io::{Failed, LineWord, Sink, put_line};
use std::alloc::Global;

// How many lines a step is told by at most.
const MOST_LINES: u64 = 33;

// How far a job has come: its step, and how many parts of that were told, of the 33 that it has.
#[derive(Clone, Copy, Debug)]
struct Meter {
    step: Step,
    parts: u64,
}

impl Meter {
    // Whether another part of a step is done, of which so much of so much in all is done.
    fn passes(&mut self, step: Step, done: u64, all: u64) -> bool {
        if step != self.step {
            self.step = step;
            self.parts = 0;
        }
        let part = done
            .saturating_mul(MOST_LINES)
            .checked_div(all)
            .unwrap_or(0);
        if part <= self.parts {
            return false;
        }
        self.parts = part;
        part <= MOST_LINES
    }
}

// Puts the line of these words, and says whether more may follow.
fn put_words<N: Sink>(notes: &mut N, words: &[LineWord<'_>]) -> bool
    ensures { NotedSo result (N.written notes.old) (N.written notes.new) (N.faults notes.old) (N.faults notes.new) }
{
    match put_line(notes, words) {
        Ok(()) => true,
        Err(Failed) => false,
    }
}

// Puts the line of so much of a step that is done, of so much in all, and says whether more may follow.
fn put_step<N: Sink>(notes: &mut N, step: Step, done: u64, all: u64) -> bool
    ensures { NotedSo result (N.written notes.old) (N.written notes.new) (N.faults notes.old) (N.faults notes.new) }
{
    let (done, all) = (Number(done), Number(all));
    match step {
        Step::Annealing => put_words(notes, &[Text(b"annealing: stage"), done, Text(b"of"), all]),
        Step::Routing => put_words(notes, &[Text(b"routing: channel"), done, Text(b"of"), all]),
        Step::Writing => put_words(
            notes,
            &[
                Text(b"writing:"),
                done,
                Text(b"of"),
                all,
                Text(b"shapes of channels"),
            ],
        ),
    }
}

/// The sink for notes, on which is told how far a job has come, if that is wished for, by at most 33 lines for each step, each of them put at once. After a line that could not be put whole
/// nothing follows. It takes no memory.
#[derive(Drop)]
pub(crate) struct Progress<'n, N: Sink> {
    notes: &'n mut N,
    wished: bool,
    going: bool,
    meter: Meter,
}

impl<'n, N: Sink> Progress<'n, N> {
    /// That on this sink, where it is wished for or not, and more may follow or not.
    pub(crate) fn new(notes: &'n mut N, wished: bool, going: bool) -> Progress<'n, N>
        ensures place { result.notes.ghost_name ≡ notes.entry.ghost_name }
        ensures now { result.notes.now ≡ notes.old }
        ensures wished { result.wished ≡ wished }
        ensures going { result.going ≡ going }
    {
        let meter = Meter {
            step: Step::Annealing,
            parts: 0,
        };
        Progress {
            notes,
            wished,
            going,
            meter,
        }
    }

    /// Whether more may follow.
    pub(crate) fn is_going(&self) -> bool
        ensures { result ≡ self.now.going }
    {
        self.going
    }
}

impl<'n, N: Sink> Watch for Progress<'n, N> {
    ghost use Rattle.commands.specs.Noted.{IsTold};
    ghost use Rattle.std.proofs.Common.{◌∙◌, refl};

    ghost goes = { λ old new. IsTold N.written N.faults (new.notes.ghost_name ≡ old.notes.ghost_name) old.wished new.wished old.going new.going old.notes.now new.notes.now };

    fn told(&mut self, step: Step, done: u64, all: u64) {
        if !self.wished {
            return;
        }
        if !self.going {
            return;
        }
        if self.meter.passes(step, done, all) {
            self.going = put_step(self.notes, step, done, all);
        }
    }

    ghost goes_here = { λ x. record { place = refl; wish = refl; noted = λ before count first. first; unwished = λ none. refl } };

    ghost goes_then = { λ x y z one two. record {
      place = two.place ∙ one.place;
      wish = two.wish ∙ one.wish;
      noted = λ before count first. two.noted before count (one.noted before count first);
      unwished = λ none. two.unwished (one.wish ∙ none) ∙ one.unwished none;
    } };
}

/// Whether the command of these words wishes to be told how far its job has come. Where it wishes for no notes it does not, nor where memory runs out.
pub(crate) fn wishes_progress(alloc: Global, words: &[Word], styles: &[Style]) -> bool
    requires { 0 < length styles.now }
    ensures { (command : asked.Command) → command_of (map (λ s. s.chooser.name) styles.now) words.now ≡ Some command → is_quiet command ≡ true → result ≡ false }
{
    match read_command(alloc, styles, words) {
        Ok(Command::Route(names)) => {
            if names.quiet {
                return false;
            }
            names.progress
        }
        Ok(_) => false,
        Err(_) => false,
    }
}
