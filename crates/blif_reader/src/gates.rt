//! Gates with their pins and names.

ghost use Rattle.blif_reader.specs.Lines.{a_cname, gate_after, name_below};
ghost use Rattle.blif_reader.specs.Tokens.{tokens};
ghost use Rattle.read_base.specs.Answers.{Answers};
ghost use Rattle.std.specs.Prelude.{◌≡◌, ◌<◌, ◌≤◌, length, IfOk};

use crate::fault::Stop;
use crate::file::{BlifWord, Gate};
use crate::tokens::{end_at, line_at, word_at};
use crate::words::{is_next, name_of, pins_at, place_of, the_word_at, worded};
use geom_core::Items;
use std::alloc::Global;

/// A line `.cname` with its name, and the text behind it.
#[tactic(auto, unfolding(crate::specs::Lines::a_cname))]
fn cname_at(alloc: Global, size: usize, bytes: &[u8]) -> Result<(BlifWord, &[u8]), Stop>
    ensures gives { Answers (λ x. (x.0, tokens x.1.now)) result (a_cname size (tokens bytes.now)) }
    ensures shorter { IfOk result (λ x. length x.1.now < length bytes.now) }
{
    let rest = the_word_at(b".cname", bytes)?;
    let (name, rest) = word_at(rest)?;
    let rest = end_at(rest)?;
    Ok((worded(alloc, size, name)?, rest))
}

/// The name that a `.cname` in the next line gives, if there is one, and the text behind it.
#[tactic(auto, unfolding(crate::specs::Lines::name_below))]
fn name_below_at(
    alloc: Global,
    size: usize,
    bytes: &[u8],
) -> Result<(Option<BlifWord>, &[u8]), Stop>
    ensures gives { Answers (λ x. (x.0, tokens x.1.now)) result (name_below size (tokens bytes.now)) }
    ensures shorter { IfOk result (λ x. length x.1.now ≤ length bytes.now) }
{
    let line = line_at(bytes);
    if !is_next(b".cname", line) {
        return Ok((None, bytes));
    }
    let (name, rest) = cname_at(alloc, size, line)?;
    Ok((Some(name), rest))
}

/// The gate behind its keyword, with the name in the next line, and the text behind it.
#[tactic(auto, unfolding(crate::specs::Lines::gate_after))]
pub(crate) fn gate_at(alloc: Global, size: usize, bytes: &[u8]) -> Result<(Gate, &[u8]), Stop>
    ensures gives { Answers (λ x. (x.0, tokens x.1.now)) result (gate_after size (tokens bytes.now)) }
    ensures shorter { IfOk result (λ x. length x.1.now < length bytes.now) }
{
    let (module, rest) = word_at(bytes)?;
    let (pins, rest) = pins_at(alloc, size, rest)?;
    let (name, rest) = name_below_at(alloc, size, rest)?;
    let gate = Gate {
        module: name_of(alloc, module.text)?,
        at: place_of(size, module),
        name,
        pins: Items::new(pins),
    };
    Ok((gate, rest))
}
