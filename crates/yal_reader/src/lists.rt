//! The lines of an IOLIST with their spots, and the calls of a NETWORK.

ghost use Rattle.list_facts.specs.Texts.{texts};
ghost use Rattle.std.specs.Prelude.{◌≡◌, ◌<◌, ◌≤◌, ◌++◌, ◌∷◌, [], ℕ, length, IfOk};
ghost use Rattle.yal_reader.specs.Kept.{has_spot as has_spot_of, is_parent as is_parent_kind};
ghost use Rattle.yal_reader.specs.Lists.{a_spot, call_after, calls_of, calls_until, io_list, keeps_lines as keeps_lines_of, line_after, lines_of, lines_until, network, spot_after};
ghost use Rattle.read_base.specs.Answers.{Answers};
ghost use Rattle.yal_reader.specs.Seen.{seen};
ghost use Rattle.yal_reader.specs.Tokens.{tokens};

use crate::coordinates::number_at;
use crate::fault::{Stop, YalKind};
use crate::file::{Call, Flow, Kind, Line, Spot};
use crate::notation::Numbers;
use crate::tokens::{bad, end_at, statement_at, word_at};
use crate::word::Word;
use crate::words::{after_stop_at, flow_at, is_word, name_of, past_words_at, words_at};
use geom_core::Items;
use indexmap::IndexSet;
use list_facts::is_new;
use std::alloc::Global;

/// Whether the lines of such a module have a spot where their flow is this one.
fn has_spot(kind: Kind, flow: Flow) -> bool
    ensures { result ≡ has_spot_of kind flow }
{
    match kind {
        Kind::Standard => match flow {
            Flow::PWR => false,
            Flow::GND => false,
            _ => true,
        },
        _ => false,
    }
}

/// Whether the lines of such a module are kept.
fn keeps_lines(kind: Kind) -> bool
    ensures { result ≡ keeps_lines_of kind }
{
    match kind {
        Kind::Standard => true,
        Kind::Parent => true,
        _ => false,
    }
}

/// Whether the calls of such a module are kept.
fn is_parent(kind: Kind) -> bool
    ensures { result ≡ is_parent_kind kind }
{
    match kind {
        Kind::Parent => true,
        _ => false,
    }
}

/// The spot that comes next: x and y, a width that is any word, and the layer's word.
#[tactic(auto, unfolding(crate::specs::Lists::a_spot))]
fn spot_at(alloc: Global, numbers: Numbers, bytes: &[u8]) -> Result<(Spot, &[u8]), Stop>
    ensures gives { Answers (λ x. (x.0, tokens x.1.now)) result (a_spot numbers (tokens bytes.now)) }
    ensures shorter { IfOk result (λ x. length x.1.now < length bytes.now) }
{
    let (x, rest) = number_at(numbers, bytes)?;
    let (y, rest) = number_at(numbers, rest)?;
    let (_, rest) = word_at(rest)?;
    let (layer, rest) = word_at(rest)?;
    let layer = name_of(alloc, layer)?;
    Ok((Spot { x, y, layer }, rest))
}

/// The spot that comes next, where lines of this kind and flow have one.
#[tactic(auto, unfolding(crate::specs::Lists::spot_after))]
fn spot_where_due(
    alloc: Global,
    numbers: Numbers,
    kind: Kind,
    flow: Flow,
    bytes: &[u8],
) -> Result<(Option<Spot>, &[u8]), Stop>
    ensures gives { Answers (λ x. (x.0, tokens x.1.now)) result (spot_after numbers kind flow (tokens bytes.now)) }
    ensures shorter { IfOk result (λ x. length x.1.now ≤ length bytes.now) }
{
    if !has_spot(kind, flow) {
        return Ok((None, bytes));
    }
    let (spot, rest) = spot_at(alloc, numbers, bytes)?;
    Ok((Some(spot), rest))
}

/// The terminal's line of this name, which the text goes on with, and the text behind it.
#[tactic(auto, unfolding(crate::specs::Lists::line_after))]
fn line_at<'a>(
    alloc: Global,
    numbers: Numbers,
    kind: Kind,
    name: Word<'a>,
    bytes: &'a [u8],
) -> Result<(Line, &'a [u8]), Stop>
    ensures gives { Answers (λ x. (x.0, tokens x.1.now)) result (line_after numbers kind (seen name.entry) (tokens bytes.entry.now)) }
    ensures shorter { IfOk result (λ x. length x.1.now < length bytes.entry.now) }
{
    let (flow, rest) = flow_at(bytes)?;
    let (spot, rest) = spot_where_due(alloc, numbers, kind, flow, rest)?;
    let rest = past_words_at(rest)?;
    let name = name_of(alloc, name)?;
    Ok((Line { name, flow, spot }, rest))
}

/// The lines up to ENDIOLIST, and the text behind that word.
fn lines_at(
    alloc: Global,
    numbers: Numbers,
    kind: Kind,
    bytes: &[u8],
) -> Result<(Vec<Line>, &[u8]), Stop>
    ensures gives { (n : ℕ) → length bytes.now < n → Answers (λ x. (x.0.items, tokens x.1.now)) result (lines_until numbers kind n [] (tokens bytes.now)) }
    ensures shorter { IfOk result (λ x. length x.1.now < length bytes.now) }
{
    let mut found = Vec::new(alloc);
    let mut rest = bytes;
    loop {
        let (first, after) = word_at(statement_at(rest))?;
        if is_word(first.text, b"ENDIOLIST") {
            return Ok((found, after));
        }
        let (line, after) = line_at(alloc, numbers, kind, first, after)?;
        found.push(line)?;
        rest = after;
    }
}

/// The lines of an IOLIST that are kept, and the text behind ENDIOLIST.
#[tactic(auto, unfolding(crate::specs::Lists::lines_of))]
fn lines_or_none(
    alloc: Global,
    numbers: Numbers,
    kind: Kind,
    bytes: &[u8],
) -> Result<(Vec<Line>, &[u8]), Stop>
    ensures gives { (n : ℕ) → length bytes.now < n → Answers (λ x. (x.0.items, tokens x.1.now)) result (lines_of numbers n kind (tokens bytes.now)) }
    ensures shorter { IfOk result (λ x. length x.1.now < length bytes.now) }
{
    if keeps_lines(kind) {
        return lines_at(alloc, numbers, kind, bytes);
    }
    let rest = after_stop_at(b"ENDIOLIST", bytes)?;
    Ok((Vec::new(alloc), rest))
}

/// An IOLIST behind its keyword: its lines where they are kept, and the text behind its end.
#[tactic(auto, unfolding(crate::specs::Lists::io_list))]
pub(crate) fn io_list_at(
    alloc: Global,
    numbers: Numbers,
    kind: Kind,
    bytes: &[u8],
) -> Result<(Vec<Line>, &[u8]), Stop>
    ensures gives { (n : ℕ) → length bytes.now < n → Answers (λ x. (x.0.items, tokens x.1.now)) result (io_list numbers n kind (tokens bytes.now)) }
    ensures shorter { IfOk result (λ x. length x.1.now < length bytes.now) }
{
    let rest = end_at(bytes)?;
    let (lines, rest) = lines_or_none(alloc, numbers, kind, rest)?;
    let rest = end_at(rest)?;
    Ok((lines, rest))
}

/// The call of this name, which the text goes on with, and the text behind it; the name joins those taken.
#[tactic(auto, unfolding(crate::specs::Lists::call_after))]
fn call_at<'a>(
    alloc: Global,
    names: &mut IndexSet<&'a [u8]>,
    name: Word<'a>,
    bytes: &'a [u8],
) -> Result<(Call, &'a [u8]), Stop>
    ensures gives { Answers (λ x. (x.0, tokens x.1.now)) result (call_after (texts names.old.keys) (seen name.entry) (tokens bytes.entry.now)) }
    ensures grown { IfOk result (λ x. texts names.new.keys ≡ texts names.old.keys ++ x.0.name ∷ []) }
    ensures shorter { IfOk result (λ x. length x.1.now < length bytes.entry.now) }
{
    if !is_new(names, name.text)? {
        return Err(Stop::At(bad(YalKind::Twice, name)));
    }
    let (module, rest) = word_at(bytes)?;
    let (signals, rest) = words_at(alloc, rest)?;
    let name = name_of(alloc, name)?;
    let module = name_of(alloc, module)?;
    Ok((
        Call {
            name,
            module,
            signals: Items::new(signals),
        },
        rest,
    ))
}

/// The calls up to ENDNETWORK, and the text behind that word.
fn calls_at(alloc: Global, bytes: &[u8]) -> Result<(Vec<Call>, &[u8]), Stop>
    ensures gives { (n : ℕ) → length bytes.now < n → Answers (λ x. (x.0.items, tokens x.1.now)) result (calls_until n [] (tokens bytes.now)) }
    ensures shorter { IfOk result (λ x. length x.1.now < length bytes.now) }
{
    let mut found = Vec::new(alloc);
    let mut names = IndexSet::new(alloc);
    let mut rest = bytes;
    loop {
        let (first, after) = word_at(statement_at(rest))?;
        if is_word(first.text, b"ENDNETWORK") {
            return Ok((found, after));
        }
        let (call, after) = call_at(alloc, &mut names, first, after)?;
        found.push(call)?;
        rest = after;
    }
}

/// The calls of a NETWORK that are kept, and the text behind ENDNETWORK.
#[tactic(auto, unfolding(crate::specs::Lists::calls_of))]
fn calls_or_none(alloc: Global, kind: Kind, bytes: &[u8]) -> Result<(Vec<Call>, &[u8]), Stop>
    ensures gives { (n : ℕ) → length bytes.now < n → Answers (λ x. (x.0.items, tokens x.1.now)) result (calls_of n kind (tokens bytes.now)) }
    ensures shorter { IfOk result (λ x. length x.1.now < length bytes.now) }
{
    if is_parent(kind) {
        return calls_at(alloc, bytes);
    }
    let rest = after_stop_at(b"ENDNETWORK", bytes)?;
    Ok((Vec::new(alloc), rest))
}

/// A NETWORK behind its keyword: its calls where they are kept, and the text behind its end.
#[tactic(auto, unfolding(crate::specs::Lists::network))]
pub(crate) fn network_at(
    alloc: Global,
    kind: Kind,
    bytes: &[u8],
) -> Result<(Vec<Call>, &[u8]), Stop>
    ensures gives { (n : ℕ) → length bytes.now < n → Answers (λ x. (x.0.items, tokens x.1.now)) result (network n kind (tokens bytes.now)) }
    ensures shorter { IfOk result (λ x. length x.1.now < length bytes.now) }
{
    let rest = end_at(bytes)?;
    let (calls, rest) = calls_or_none(alloc, kind, rest)?;
    let rest = end_at(rest)?;
    Ok((calls, rest))
}
