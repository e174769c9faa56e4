//! The lines that say what is wrong with a layout.

ghost use Rattle.command_ends.specs.FindingLines.{finding_lines, finding_words, instance_of_pin, judged_text, name_of_cell, name_of_instance, name_of_terminal, pin_words, terminal_of_pin};
ghost use Rattle.design_model.specs.PinOrder.{instance_terminals};
ghost use Rattle.shelf_io.specs.Lines.{line, word_text};
ghost use Rattle.shelf_io.specs.Wrote.{Puts, Writes};
ghost use Rattle.std.specs.Fmt.{decimal};
ghost use Rattle.std.specs.Prelude.{◌≡◌, ◌≤◌, ◌∷◌, [], map, slice_get, take};

use design_model::{Design, Terminal};
use geom_core::Layout;
use layout_check::Finding;
use shelf_io::LineWord::{self, Number, Text};
use shelf_io::{Buffer, Failed, Sink, append_line};

// The name of the instance with this number.
fn name_of_instance(design: &Design, i: u32) -> &[u8]
    ensures { result.now ≡ name_of_instance design.now i }
{
    match design.instances.items().get(i as usize) {
        Some(instance) => instance.name.items(),
        None => b"",
    }
}

// The name of the cell with this number.
fn name_of_cell(layout: &Layout, c: u32) -> &[u8]
    ensures { result.now ≡ name_of_cell layout.now c }
{
    match layout.cells.items().get(c as usize) {
        Some(cell) => cell.name.items(),
        None => b"",
    }
}

// The terminals of an instance.
fn terminals_of(design: &Design, i: u32) -> &[Terminal]
    ensures { result.now ≡ instance_terminals design.now i }
{
    let Some(instance) = design.instances.items().get(i as usize) else {
        return &[];
    };
    match design.kinds.items().get(instance.kind as usize) {
        Some(kind) => kind.terminals.items(),
        None => &[],
    }
}

// The name of a terminal of an instance, by their numbers.
fn name_of_terminal(design: &Design, i: u32, t: u32) -> &[u8]
    ensures { result.now ≡ name_of_terminal design.now i t }
{
    match terminals_of(design, i).get(t as usize) {
        Some(terminal) => terminal.name.items(),
        None => b"",
    }
}

/// The name of the instance of a pin, without bytes where there is no pin of this number. Takes no memory.
pub fn instance_of_pin(design: &Design, p: u32) -> &[u8]
    ensures { result.now ≡ instance_of_pin design.now (slice_get design.now.pins p) }
{
    match design.pins.items().get(p as usize) {
        Some(pin) => name_of_instance(design, pin.instance),
        None => b"",
    }
}

// The name of the terminal of a pin.
fn terminal_of_pin(design: &Design, p: u32) -> &[u8]
    ensures { result.now ≡ terminal_of_pin design.now (slice_get design.now.pins p) }
{
    match design.pins.items().get(p as usize) {
        Some(pin) => name_of_terminal(design, pin.instance, pin.terminal),
        None => b"",
    }
}

// A word and one more.
fn two_words<'w>(word: &'w [u8], name: LineWord<'w>) -> ([LineWord<'w>; 5], usize)
    ensures few { result.1 ≤ 5 }
    ensures words { map word_text (take result.1 result.0) ≡ word.now ∷ word_text name.entry ∷ [] }
{
    ([Text(word), name, Text(b""), Text(b""), Text(b"")], 2)
}

// A word and two numbers.
fn shape_words<'w>(word: &'w [u8], i: u32, j: u32) -> ([LineWord<'w>; 5], usize)
    ensures few { result.1 ≤ 5 }
    ensures words { map word_text (take result.1 result.0) ≡ word.now ∷ decimal i ∷ decimal j ∷ [] }
{
    (
        [
            Text(word),
            Number(i as u64),
            Number(j as u64),
            Text(b""),
            Text(b""),
        ],
        3,
    )
}

// A word and two pins.
fn pin_words<'w>(design: &'w Design, word: &'w [u8], p: u32, q: u32) -> ([LineWord<'w>; 5], usize)
    ensures few { result.1 ≤ 5 }
    ensures words { map word_text (take result.1 result.0) ≡ pin_words design.now word.now p q }
{
    (
        [
            Text(word),
            Text(instance_of_pin(design, p)),
            Text(terminal_of_pin(design, p)),
            Text(instance_of_pin(design, q)),
            Text(terminal_of_pin(design, q)),
        ],
        5,
    )
}

/// The words of a finding's line and how many of these they are: its kind, and the names or the numbers of what it tells of. Takes no memory.
#[tactic(auto, unfolding(crate::specs::FindingLines::finding_words))]
pub fn finding_words<'w>(
    design: &'w Design,
    layout: &'w Layout,
    finding: Finding,
) -> ([LineWord<'w>; 5], usize)
    ensures few { result.1 ≤ 5 }
    ensures words { map word_text (take result.1 result.0) ≡ finding_words design.now layout.now finding }
{
    match finding {
        Finding::Missing(i) => two_words(b"Missing", Text(name_of_instance(design, i))),
        Finding::Doubled(c, _) => two_words(b"Doubled", Text(name_of_cell(layout, c))),
        Finding::Strange(c) => two_words(b"Strange", Text(name_of_cell(layout, c))),
        Finding::Drawing(c) => two_words(b"Drawing", Text(name_of_cell(layout, c))),
        Finding::Overlap(i, j) => shape_words(b"Overlap", i, j),
        Finding::OutOfRow(i, j) => shape_words(b"OutOfRow", i, j),
        Finding::Narrow(i) => two_words(b"Narrow", Number(i as u64)),
        Finding::Close(i, j) => shape_words(b"Close", i, j),
        Finding::BareCut(i) => two_words(b"BareCut", Number(i as u64)),
        Finding::Opened(p, q) => pin_words(design, b"Open", p, q),
        Finding::Short(p, q) => pin_words(design, b"Short", p, q),
    }
}

// Puts the line of a finding behind what is buffered.
fn append_finding<K: Sink>(
    buffer: &mut Buffer,
    out: &mut K,
    design: &Design,
    layout: &Layout,
    finding: Finding,
) -> Result<(), Failed>
    ensures { Writes result (line (finding_words design.now layout.now finding)) buffer.old buffer.new (K.written out.old) (K.written out.new) (K.faults out.old) (K.faults out.new) (K.same_place out.old out.new) (K.else_same out.old out.new) }
{
    let (words, count) = finding_words(design, layout, finding);
    append_line(buffer, out, &words[..count])
}

// Puts a line for each finding behind what is buffered.
fn append_findings<K: Sink>(
    buffer: &mut Buffer,
    out: &mut K,
    design: &Design,
    layout: &Layout,
    findings: &[Finding],
) -> Result<(), Failed>
    ensures { Writes result (finding_lines design.now layout.now findings.now) buffer.old buffer.new (K.written out.old) (K.written out.new) (K.faults out.old) (K.faults out.new) (K.same_place out.old out.new) (K.else_same out.old out.new) }
{
    let mut rest = findings;
    while let Some((finding, after)) = rest.split_first() {
        append_finding(buffer, out, design, layout, *finding)?;
        rest = after;
    }
    Ok(())
}

/// Puts what is printed of a layout that was judged for a design: a line for each finding, and then a line with their number, in pieces of 4,096 bytes where the sink
/// takes them so. It errs where the sink failed, whose count then rose, and leaves a front of the text. Takes no memory.
pub fn put_judged<K: Sink>(
    out: &mut K,
    design: &Design,
    layout: &Layout,
    findings: &[Finding],
) -> Result<(), Failed>
    ensures { Puts result (judged_text design.now layout.now findings.now) (K.written out.old) (K.written out.new) (K.faults out.old) (K.faults out.new) (K.same_place out.old out.new) (K.else_same out.old out.new) }
{
    let mut buffer = Buffer::new();
    append_findings(&mut buffer, out, design, layout, findings)?;
    append_line(
        &mut buffer,
        out,
        &[Text(b"findings"), Number(findings.len() as u64)],
    )?;
    buffer.flush(out)
}
