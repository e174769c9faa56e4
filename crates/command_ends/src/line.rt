//! The line that says why a command stopped.

ghost use Rattle.command_ends.specs.Gains.{Gains};
ghost use Rattle.command_ends.specs.Line.{fault_word, import_word, kind_word, limited_word, line_of, meaning_word, netlist_word, refusal_words, stop_words, text_word};
ghost use Rattle.command_ends.specs.declared.refusal.Refusal.TheVariants.{Design, Import, PortClash};
ghost use Rattle.shelf_io.specs.Lines.{line, word_text};
ghost use Rattle.shelf_io.specs.Wrote.{Puts};
ghost use Rattle.std.specs.Prelude.{◌≡◌, ◌≤◌, ◌∷◌, []};

use crate::refusal::{Limited, Refusal};
use crate::stop::Stop;
use blif_reader::BlifKind;
use cif_reader::ExpandKind;
use cif_text::CifKind;
use geom_core::Name;
use netlist_core::{Count, DesignFault};
use netlist_import::{ImportFlaw, ImportKind};
use shelf_io::LineWord::{self, Number, Text};
use shelf_io::{Failed, Sink, put_line};
use yal_reader::YalKind;

// The word of a fault of YAL.
#[tactic(auto, unfolding(crate::specs::Line::kind_word))]
fn kind_word(kind: YalKind) -> &'static [u8]
    ensures { result.now ≡ kind_word kind }
{
    match kind {
        YalKind::NotAscii => b"NotAscii",
        YalKind::OpenComment => b"OpenComment",
        YalKind::Word => b"Word",
        YalKind::Ends => b"Ends",
        YalKind::Number => b"Number",
        YalKind::Twice => b"Twice",
    }
}

// The word of a fault of a design.
#[tactic(auto, unfolding(crate::specs::Line::fault_word))]
fn fault_word(fault: DesignFault) -> &'static [u8]
    ensures { result.now ≡ fault_word fault }
{
    match fault {
        DesignFault::NoParent => b"NoParent",
        DesignFault::ManyParents => b"ManyParents",
        DesignFault::UnknownModule(_) => b"UnknownModule",
        DesignFault::NotStandard(_) => b"NotStandard",
        DesignFault::SignalCount(_) => b"SignalCount",
        DesignFault::NoShape(_) => b"NoShape",
        DesignFault::OffGrid(_) => b"OffGrid",
        DesignFault::TooLow(_) => b"TooLow",
        DesignFault::PinClash(_) => b"PinClash",
        DesignFault::WrongLayer(_) => b"WrongLayer",
        DesignFault::Limit(..) => b"Limit",
        DesignFault::Memory => b"Memory",
    }
}

// The word of a fault of a netlist's text.
#[tactic(auto, unfolding(crate::specs::Line::netlist_word))]
fn netlist_word(kind: BlifKind) -> &'static [u8]
    ensures { result.now ≡ netlist_word kind }
{
    match kind {
        BlifKind::Byte => b"Byte",
        BlifKind::Word => b"Word",
        BlifKind::Ends => b"Ends",
        BlifKind::Directive => b"Directive",
        BlifKind::Model => b"Model",
        BlifKind::Cname => b"Cname",
        BlifKind::Pin => b"Pin",
        BlifKind::Table => b"Table",
    }
}

// The word of a fault of a netlist for its cells.
#[tactic(auto, unfolding(crate::specs::Line::import_word))]
fn import_word(kind: ImportKind) -> &'static [u8]
    ensures { result.now ≡ import_word kind }
{
    match kind {
        ImportKind::Parent => b"Parent",
        ImportKind::Model => b"Model",
        ImportKind::Keyword => b"Keyword",
        ImportKind::Net => b"Net",
        ImportKind::Power => b"Power",
        ImportKind::Constant => b"Constant",
        ImportKind::Name => b"Name",
        ImportKind::Cell => b"Cell",
        ImportKind::Pin => b"Pin",
        ImportKind::Twice => b"Twice",
        ImportKind::Missing => b"Missing",
    }
}

// The word of a fault of a text of CIF.
#[tactic(auto, unfolding(crate::specs::Line::text_word))]
fn text_word(kind: CifKind) -> &'static [u8]
    ensures { result.now ≡ text_word kind }
{
    match kind {
        CifKind::NotAscii => b"NotAscii",
        CifKind::Unclosed => b"Unclosed",
        CifKind::BadCommand => b"BadCommand",
        CifKind::Number => b"Number",
        CifKind::NoEnd => b"NoEnd",
        CifKind::LeftOut(_) => b"LeftOut",
        CifKind::Turned => b"Turned",
    }
}

// The word of a fault of the commands of a text.
#[tactic(auto, unfolding(crate::specs::Line::meaning_word))]
fn meaning_word(kind: ExpandKind) -> &'static [u8]
    ensures { result.now ≡ meaning_word kind }
{
    match kind {
        ExpandKind::Undefined(_) => b"Undefined",
        ExpandKind::Twice(_) => b"Twice",
        ExpandKind::Inexact => b"Inexact",
        ExpandKind::TooFar(_) => b"TooFar",
        ExpandKind::LongPath => b"LongPath",
        ExpandKind::TooMany => b"TooMany",
        ExpandKind::NoLayer => b"NoLayer",
        ExpandKind::NoSymbolName => b"NoSymbolName",
        ExpandKind::TooDeep => b"TooDeep",
    }
}

// The word of what may pass a limit.
#[tactic(auto, unfolding(crate::specs::Line::limited_word))]
fn limited_word(what: Limited) -> &'static [u8]
    ensures { result.now ≡ limited_word what }
{
    match what {
        Limited::Rules => b"Rules",
        Limited::Design => b"Design",
        Limited::Cif => b"Cif",
        Limited::Blif => b"Blif",
        Limited::Cells => b"Cells",
        Limited::Instances => b"Instances",
        Limited::Pins => b"Pins",
        Limited::Moves => b"Moves",
        Limited::Grid => b"Grid",
        Limited::Width => b"Width",
        Limited::Height => b"Height",
        Limited::Picture => b"Picture",
    }
}

// Puts the line of three words.
fn put_three<K: Sink>(
    out: &mut K,
    first: &[u8],
    second: &[u8],
    third: LineWord<'_>,
) -> Result<(), Failed>
    ensures { Puts result (line (first.now ∷ second.now ∷ word_text third.entry ∷ [])) (K.written out.old) (K.written out.new) (K.faults out.old) (K.faults out.new) (K.same_place out.old out.new) (K.else_same out.old out.new) }
{
    put_line(out, &[Text(first), Text(second), third])
}

// Puts the line of the fault of a design, with the name that it speaks of.
#[tactic(auto, unfolding(crate::specs::Line::refusal_words))]
fn put_design<K: Sink>(out: &mut K, fault: DesignFault, name: &Option<Name>) -> Result<(), Failed>
    ensures { Puts result (line (refusal_words (Design fault name.now))) (K.written out.old) (K.written out.new) (K.faults out.old) (K.faults out.new) (K.same_place out.old out.new) (K.else_same out.old out.new) }
{
    let word = Text(fault_word(fault));
    match name {
        None => put_line(out, &[Text(b"design"), word]),
        Some(name) => put_line(out, &[Text(b"design"), word, Text(name.items())]),
    }
}

// Puts the line of a name that ports would have.
#[tactic(auto, unfolding(crate::specs::Line::refusal_words))]
fn put_clash<K: Sink>(out: &mut K, name: &Name) -> Result<(), Failed>
    ensures { Puts result (line (refusal_words (PortClash name.now))) (K.written out.old) (K.written out.new) (K.faults out.old) (K.faults out.new) (K.same_place out.old out.new) (K.else_same out.old out.new) }
{
    put_line(
        out,
        &[Text(b"design"), Text(b"PortClash"), Text(name.items())],
    )
}

// Puts the line of a netlist that does not fit its cells.
#[tactic(auto, unfolding(crate::specs::Line::refusal_words))]
fn put_flaw<K: Sink>(out: &mut K, flaw: &ImportFlaw) -> Result<(), Failed>
    ensures { Puts result (line (refusal_words (Import flaw.now))) (K.written out.old) (K.written out.new) (K.faults out.old) (K.faults out.new) (K.same_place out.old out.new) (K.else_same out.old out.new) }
{
    let kind = Text(import_word(flaw.kind));
    let name = Text(flaw.name.items());
    put_line(out, &[Text(b"import"), kind, name, Number(flaw.at)])
}

// Puts the line of a refusal.
#[tactic(auto, unfolding(crate::specs::Line::refusal_words))]
fn put_refusal<K: Sink>(out: &mut K, refusal: &Refusal) -> Result<(), Failed>
    ensures { Puts result (line (refusal_words refusal.now)) (K.written out.old) (K.written out.new) (K.faults out.old) (K.faults out.new) (K.same_place out.old out.new) (K.else_same out.old out.new) }
{
    match refusal {
        Refusal::Usage => put_line(out, &[Text(b"usage")]),
        Refusal::Toml => put_line(out, &[Text(b"rules"), Text(b"Toml")]),
        Refusal::Missing(key) => put_three(out, b"rules", b"Missing", Text(key.name().as_bytes())),
        Refusal::Range(key) => put_three(out, b"rules", b"Range", Text(key.name().as_bytes())),
        Refusal::Tight(rule) => put_three(out, b"rules", b"Tight", Number(u64::from(*rule))),
        Refusal::Yal(kind, at) => put_three(out, b"yal", kind_word(*kind), Number(*at)),
        Refusal::Design(fault, name) => put_design(out, *fault, name),
        Refusal::PortClash(name) => put_clash(out, name),
        Refusal::Blif(kind, at) => put_three(out, b"blif", netlist_word(*kind), Number(*at)),
        Refusal::Import(flaw) => put_flaw(out, flaw),
        Refusal::Cif(kind, at) => put_three(out, b"cif", text_word(*kind), Number(*at)),
        Refusal::Meaning(kind, at) => put_three(
            out,
            b"cif",
            meaning_word(*kind),
            Number(u64::from(*at)),
        ),
        Refusal::Limit(what, number) => put_three(
            out,
            b"limit",
            limited_word(*what),
            Number(*number),
        ),
        Refusal::Memory => put_line(out, &[Text(b"memory")]),
    }
}

// Puts the line of what stopped a command.
#[tactic(auto, unfolding(crate::specs::Line::stop_words))]
fn put_stop<K: Sink>(out: &mut K, stop: &Stop) -> Result<(), Failed>
    ensures { Puts result (line (stop_words stop.now)) (K.written out.old) (K.written out.new) (K.faults out.old) (K.faults out.new) (K.same_place out.old out.new) (K.else_same out.old out.new) }
{
    match stop {
        Stop::Refused(refusal) => put_refusal(out, refusal),
        Stop::ReadFault => put_line(out, &[Text(b"read"), Text(b"fault")]),
        Stop::WriteFault => put_line(out, &[Text(b"write"), Text(b"fault")]),
    }
}

/// Prints the line of what stopped a command, as far as the sink takes it. Takes no memory.
pub fn print_line<K: Sink>(out: &mut K, stop: &Stop)
    ensures line { Gains (line_of stop.now) (K.written out.old) (K.written out.new) (K.faults out.old) (K.faults out.new) }
    ensures later { K.faults out.old ≤ K.faults out.new }
{
    let _ = put_stop(out, stop);
}
