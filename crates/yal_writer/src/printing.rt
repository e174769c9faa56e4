//! Prints a PARENT, in pieces as a sink takes them.

ghost use Rattle.shelf_io.specs.Wrote.{Puts, Writes};
ghost use Rattle.std.specs.Prelude.{◌≡◌, ◌++◌, codes};
ghost use Rattle.yal_writer.specs.ParentText.{call_words, calls_text, flow_word, heading_text, line_words, lines_text, parent_text, statement, word_end};
ghost use Rattle.yal_writer.specs.ReadsBack.{ReadsBack};

use geom_core::Name;
use shelf_io::{Buffer, Failed, Sink};
use yal_reader::{Call, Flow, Line, Module};

/// Puts two pieces behind what is buffered, one behind the other.
fn append_both<K: Sink>(
    buffer: &mut Buffer,
    out: &mut K,
    first: &[u8],
    second: &[u8],
) -> Result<(), Failed>
    ensures { Writes result (first.now ++ second.now) buffer.old buffer.new (K.written out.old) (K.written out.new) (K.faults out.old) (K.faults out.new) (K.same_place out.old out.new) (K.else_same out.old out.new) }
{
    buffer.append(out, first)?;
    buffer.append(out, second)
}

/// What stands after a word before these: a blank, or the end of the statement where there are none.
fn word_end(rest: &[Name]) -> &'static [u8]
    ensures { result.now ≡ word_end rest.now }
{
    if rest.is_empty() { b";\n" } else { b" " }
}

/// Puts the rest of a statement behind what is buffered.
fn append_words<K: Sink>(buffer: &mut Buffer, out: &mut K, words: &[Name]) -> Result<(), Failed>
    ensures { Writes result (statement words.now) buffer.old buffer.new (K.written out.old) (K.written out.new) (K.faults out.old) (K.faults out.new) (K.same_place out.old out.new) (K.else_same out.old out.new) }
{
    let Some((word, after)) = words.split_first() else {
        return Ok(());
    };
    append_both(buffer, out, word.items(), word_end(after))?;
    append_words(buffer, out, after)
}

/// The word of a flow.
fn flow_word(flow: Flow) -> &'static [u8]
    ensures { result.now ≡ flow_word flow }
{
    match flow {
        Flow::I => b"I",
        Flow::O => b"O",
        Flow::B => b"B",
        Flow::PI => b"PI",
        Flow::PO => b"PO",
        Flow::PB => b"PB",
        Flow::F => b"F",
        Flow::PWR => b"PWR",
        Flow::GND => b"GND",
    }
}

/// Puts the line of a terminal behind what is buffered.
fn append_line<K: Sink>(buffer: &mut Buffer, out: &mut K, line: &Line) -> Result<(), Failed>
    ensures { Writes result (statement (line_words line.now)) buffer.old buffer.new (K.written out.old) (K.written out.new) (K.faults out.old) (K.faults out.new) (K.same_place out.old out.new) (K.else_same out.old out.new) }
{
    append_both(buffer, out, line.name.items(), b" ")?;
    append_both(buffer, out, flow_word(line.flow), b";\n")
}

/// Puts the lines of terminals behind what is buffered.
fn append_lines<K: Sink>(buffer: &mut Buffer, out: &mut K, lines: &[Line]) -> Result<(), Failed>
    ensures { Writes result (lines_text lines.now) buffer.old buffer.new (K.written out.old) (K.written out.new) (K.faults out.old) (K.faults out.new) (K.same_place out.old out.new) (K.else_same out.old out.new) }
{
    let mut rest = lines;
    while let Some((line, after)) = rest.split_first() {
        append_line(buffer, out, line)?;
        rest = after;
    }
    Ok(())
}

/// Puts the first two words of a call behind what is buffered, and what stands after them.
fn append_called<K: Sink>(buffer: &mut Buffer, out: &mut K, call: &Call) -> Result<(), Failed>
    ensures { Writes result ((call.now.name ++ (codes " " ++ call.now.«module»)) ++ word_end call.now.signals) buffer.old buffer.new (K.written out.old) (K.written out.new) (K.faults out.old) (K.faults out.new) (K.same_place out.old out.new) (K.else_same out.old out.new) }
{
    append_both(buffer, out, call.name.items(), b" ")?;
    append_both(
        buffer,
        out,
        call.module.items(),
        word_end(call.signals.items()),
    )
}

/// Puts a call behind what is buffered.
fn append_call<K: Sink>(buffer: &mut Buffer, out: &mut K, call: &Call) -> Result<(), Failed>
    ensures { Writes result (statement (call_words call.now)) buffer.old buffer.new (K.written out.old) (K.written out.new) (K.faults out.old) (K.faults out.new) (K.same_place out.old out.new) (K.else_same out.old out.new) }
{
    append_called(buffer, out, call)?;
    append_words(buffer, out, call.signals.items())
}

/// Puts calls behind what is buffered.
fn append_calls<K: Sink>(buffer: &mut Buffer, out: &mut K, calls: &[Call]) -> Result<(), Failed>
    ensures { Writes result (calls_text calls.now) buffer.old buffer.new (K.written out.old) (K.written out.new) (K.faults out.old) (K.faults out.new) (K.same_place out.old out.new) (K.else_same out.old out.new) }
{
    let mut rest = calls;
    while let Some((call, after)) = rest.split_first() {
        append_call(buffer, out, call)?;
        rest = after;
    }
    Ok(())
}

/// Puts the text before the lines behind what is buffered.
fn append_heading<K: Sink>(buffer: &mut Buffer, out: &mut K, name: &Name) -> Result<(), Failed>
    ensures { Writes result (heading_text name.now) buffer.old buffer.new (K.written out.old) (K.written out.new) (K.faults out.old) (K.faults out.new) (K.same_place out.old out.new) (K.else_same out.old out.new) }
{
    append_both(buffer, out, b"\nMODULE ", name.items())?;
    buffer.append(out, b";\nTYPE PARENT;\nIOLIST;\n")
}

/// Puts a PARENT behind what is buffered.
pub(crate) fn append_parent<K: Sink>(
    buffer: &mut Buffer,
    out: &mut K,
    parent: &Module,
) -> Result<(), Failed>
    ensures { Writes result (parent_text parent.now) buffer.old buffer.new (K.written out.old) (K.written out.new) (K.faults out.old) (K.faults out.new) (K.same_place out.old out.new) (K.else_same out.old out.new) }
{
    append_heading(buffer, out, &parent.name)?;
    append_lines(buffer, out, parent.lines.items())?;
    buffer.append(out, b"ENDIOLIST;\nNETWORK;\n")?;
    append_calls(buffer, out, parent.calls.items())?;
    buffer.append(out, b"ENDNETWORK;\nENDMODULE;\n")
}

/// Prints a PARENT: a line feed, its name, its lines with their flows, and its calls with their signals, each statement on a line of its own. Behind the text of
/// modules of other names this text reads as them and the PARENT. It is put in pieces of 4,096 bytes where the sink takes them so. It errs where the sink failed, whose count then rose, and leaves a
/// front of the text. Takes no memory.
pub fn print_parent<K: Sink>(out: &mut K, parent: &Module) -> Result<(), Failed>
    ensures puts { Puts result (parent_text parent.now) (K.written out.old) (K.written out.new) (K.faults out.old) (K.faults out.new) (K.same_place out.old out.new) (K.else_same out.old out.new) }
    ensures reads { ReadsBack parent.now }
{
    let mut buffer = Buffer::new();
    append_parent(&mut buffer, out, parent)?;
    buffer.flush(out)
}
