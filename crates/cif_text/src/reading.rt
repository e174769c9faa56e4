//! All commands of a text up to its end command, or the first byte that has no reading.

ghost use Rattle.read_base.specs.Answers.{Answers, AnswersAs};
ghost use Rattle.cif_text.specs.Answers.{commands_of, told_of};
ghost use Rattle.cif_text.specs.Bytes.{is_ascii_byte, span};
ghost use Rattle.cif_text.specs.CifReads.{cif_reads, is_end, is_open_behind};
ghost use Rattle.cif_text.specs.Sound.{AreSound};
ghost use Rattle.std.specs.List.{list_all, prefix_len};
ghost use Rattle.std.specs.Prelude.{◌≡◌, ◌≤◌, IfOk, MatchOption, false, length, true};

use crate::bytes::after_between;
use crate::command::CifCommand;
use crate::commands::command_at;
use crate::fault::{CifFault, CifKind, Stop};
use std::alloc::Global;

fn is_end(command: &CifCommand) -> bool
    ensures { result ≡ is_end command.now }
{
    match command {
        CifCommand::End => true,
        _ => false,
    }
}

/// Whether a definition is open behind a command, where one was open before it or not.
fn is_open_behind(inside: bool, command: &CifCommand) -> bool
    ensures { result ≡ is_open_behind inside command.now }
{
    match command {
        CifCommand::Start { .. } => true,
        CifCommand::Finish => false,
        _ => inside,
    }
}

/// The commands of a text, up to its end command.
fn commands_in(alloc: Global, bytes: &[u8]) -> Result<Vec<CifCommand>, Stop>
    ensures gives { Answers (λ found. found.items) result (commands_of false bytes.now) }
    ensures sound { IfOk result (λ found. AreSound false found.items) }
    ensures short { IfOk result (λ found. length found.items ≤ length bytes.now) }
{
    let mut found = Vec::new(alloc);
    let mut inside = false;
    let mut rest = bytes;
    loop {
        let (command, after) = command_at(alloc, inside, after_between(rest))?;
        let ended = is_end(&command);
        inside = is_open_behind(inside, &command);
        found.push(command)?;
        if ended {
            return Ok(found);
        }
        rest = after;
    }
}

fn ascii_len(bytes: &[u8]) -> usize
    ensures { result ≡ prefix_len is_ascii_byte bytes.now }
{
    bytes.iter().take_while(|byte| **byte < 128).count()
}

/// The place of the first byte above 127, if there is one.
fn first_foreign(bytes: &[u8]) -> Option<usize>
    ensures { MatchOption result (list_all is_ascii_byte bytes.now ≡ true) (λ at. (list_all is_ascii_byte bytes.now ≡ false) × (at ≡ length (span is_ascii_byte bytes.now).0)) }
{
    let at = ascii_len(bytes);
    if at == bytes.len() {
        return None;
    }
    Some(at)
}

/// Reads a CIF text (Mead and Conway's CIF 2.0): its commands exactly where it has a reading, else the kind and the place of its
/// fault, or want of memory. Their numbers are in range, their definitions are not nested, they end with the end command, and there are
/// no more of them than bytes. The text is read once, from the front to its end command.
#[tactic(auto, unfolding(crate::specs::CifReads::cif_reads))]
pub fn read_commands(alloc: Global, bytes: &[u8]) -> Result<Vec<CifCommand>, CifFault>
    ensures reads { AnswersAs (λ found. found.items) told_of result (cif_reads bytes.now) }
    ensures sound { IfOk result (λ found. AreSound false found.items) }
    ensures short { IfOk result (λ found. length found.items ≤ length bytes.now) }
{
    if let Some(at) = first_foreign(bytes) {
        return Err(CifFault::Bad {
            kind: CifKind::NotAscii,
            at: at as u64,
        });
    }
    match commands_in(alloc, bytes) {
        Ok(found) => Ok(found),
        Err(Stop::At(flaw)) => Err(CifFault::Bad {
            kind: flaw.kind,
            at: bytes.len().saturating_sub(flaw.left) as u64,
        }),
        Err(Stop::Memory) => Err(CifFault::Memory),
    }
}
