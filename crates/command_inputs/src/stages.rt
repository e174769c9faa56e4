//! What the files of rules and of a design say.

ghost use Rattle.command_ends.specs.Answers.{Finds};
ghost use Rattle.command_ends.specs.Limits.{within_limit};
ghost use Rattle.command_ends.specs.Status.{ending_status};
ghost use Rattle.command_inputs.specs.Failures.{FileFails, InputsFail, SourceFails};
ghost use Rattle.command_inputs.specs.Origin.{AreDesignsFor, AreRead};
ghost use Rattle.command_inputs.specs.Reading.{Loads, OnlyRead, Says, files, stopped_by};
ghost use Rattle.command_inputs.specs.Stated.{design_text, design_verdict, inputs_told, rules_verdict};
ghost use Rattle.command_words.specs.Seen.{source_seen};
ghost use Rattle.layout_report.specs.MadeText.{made_text};
ghost use Rattle.std.specs.Prelude.{◌≡◌, ◌<◌, ◌≤◌, ◌^◌, length, Some, IfOk};

use crate::outcome::{ReadDesign, stated_design, stated_rules};
use crate::texts::Texts;
use command_ends::{Limited, Refusal, Stop};
use command_words::{MadeCount, Source};
use layout_report::make_design;
use limits::{MOST_DESIGN_BYTES, MOST_RULES_BYTES};
use port_rows::Designs;
use shelf_io::{LoadFault, Shelf, load};
use std::alloc::Global;
use tech_rules::Rules;
use yal_reader::YalFile;

/// An answer, whose refusal stops a command.
pub(crate) fn or_stop<T>(answer: Result<T, Refusal>) -> Result<T, Stop>
    ensures { result ≡ stopped_by answer }
{
    match answer {
        Ok(found) => Ok(found),
        Err(refusal) => Err(Stop::Refused(refusal)),
    }
}

/// The contents of a file of at most so many bytes. The files stay as they are; ReadFault comes only where the file's read count rose.
pub(crate) fn load_within<S: Shelf>(
    alloc: Global,
    shelf: &mut S,
    name: &str,
    what: Limited,
    most: u64,
) -> Result<Vec<u8>, Stop>
    requires { most < 2 ^ 32 }
    ensures loads { Loads (λ v. v.items) (within_limit what most) (λ told. told name.now) (FileFails name.now) result
        (files (S.holds shelf.old) (S.read_faults shelf.old) (S.write_faults shelf.old)) (files (S.holds shelf.new) (S.read_faults shelf.new) (S.write_faults shelf.new)) }
    ensures short { IfOk result (λ v. length v.items ≤ most) }
{
    match load(alloc, shelf, name, most) {
        Ok(bytes) => Ok(bytes),
        Err(LoadFault::ReadFault) => Err(Stop::ReadFault),
        Err(LoadFault::TooLong) => Err(Stop::Refused(Refusal::Limit(what, most))),
        Err(LoadFault::Memory) => Err(Stop::Refused(Refusal::Memory)),
    }
}

/// The rules of a file, whose text is kept.
pub(crate) fn load_rules<S: Shelf>(
    alloc: Global,
    shelf: &mut S,
    name: &str,
    texts: &mut Texts,
) -> Result<Rules, Stop>
    ensures { Loads (λ rules. rules) rules_verdict (λ told. told name.now) (FileFails name.now) result
        (files (S.holds shelf.old) (S.read_faults shelf.old) (S.write_faults shelf.old)) (files (S.holds shelf.new) (S.read_faults shelf.new) (S.write_faults shelf.new)) }
{
    let bytes = load_within(alloc, shelf, name, Limited::Rules, MOST_RULES_BYTES)?;
    let rules = or_stop(stated_rules(alloc, bytes.as_slice()));
    texts.rules = Some(bytes);
    rules
}

// The designs of a file, drawn with ports where these are wished for. Its text is kept.
fn load_design<S: Shelf>(
    alloc: Global,
    shelf: &mut S,
    name: &str,
    rules: &Rules,
    ports: bool,
    texts: &mut Texts,
) -> Result<ReadDesign, Stop>
    ensures loads { Loads (λ read. read) (design_verdict rules.now ports) (λ told. told name.now) (FileFails name.now) result
        (files (S.holds shelf.old) (S.read_faults shelf.old) (S.write_faults shelf.old)) (files (S.holds shelf.new) (S.read_faults shelf.new) (S.write_faults shelf.new)) }
    ensures are { IfOk result (λ read. AreDesignsFor rules.now ports read.file read.designs) }
{
    let bytes = load_within(alloc, shelf, name, Limited::Design, MOST_DESIGN_BYTES)?;
    let read = or_stop(stated_design(alloc, bytes.as_slice(), rules, ports));
    texts.design = Some(bytes);
    read
}

/// Rules, a file of YAL, and the designs that it says under them.
#[derive(Drop)]
pub struct Inputs {
    pub rules: Rules,
    pub file: YalFile,
    pub designs: Designs,
}

// The designs that are made under rules from a seed, with so many instances, if their text is within the limit of files.
#[tactic(auto, unfolding(crate::specs::Stated::design_verdict, command_ends::specs::Limits::within_limit))]
fn make_source(
    alloc: Global,
    seed: u64,
    count: MadeCount,
    rules: &Rules,
    ports: bool,
) -> Result<ReadDesign, Refusal>
    ensures says { Says (λ read. read) result (design_verdict rules.now ports (made_text rules.now seed count)) }
    ensures are { IfOk result (λ read. AreDesignsFor rules.now ports read.file read.designs) }
{
    let text = make_design(alloc, rules, seed, count.get())?;
    if text.len() as u64 > MOST_DESIGN_BYTES {
        return Err(Refusal::Limit(Limited::Design, MOST_DESIGN_BYTES));
    }
    stated_design(alloc, text.as_slice(), rules, ports)
}

// The designs from a source, under rules, drawn with ports where these are wished for.
fn load_source<S: Shelf>(
    alloc: Global,
    shelf: &mut S,
    source: &Source<'_>,
    rules: &Rules,
    ports: bool,
    texts: &mut Texts,
) -> Result<ReadDesign, Stop>
    ensures loads { Loads (λ read. read) (design_verdict rules.now ports) (λ told. design_text (source_seen source.now) told rules.now) (SourceFails (source_seen source.now)) result
        (files (S.holds shelf.old) (S.read_faults shelf.old) (S.write_faults shelf.old)) (files (S.holds shelf.new) (S.read_faults shelf.new) (S.write_faults shelf.new)) }
    ensures are { IfOk result (λ read. AreDesignsFor rules.now ports read.file read.designs) }
{
    match source {
        Source::File(name) => load_design(alloc, shelf, name, rules, ports, texts),
        Source::Made(seed, count) => or_stop(make_source(alloc, *seed, *count, rules, ports)),
    }
}

/// The rules of a file, and then the file and the designs from a source under them: the design is drawn with the ports of its PARENT where these are wished
/// for. The texts that are read are kept, refused ones too. The files stay as they are; ReadFault comes only where a read count rose.
pub fn load_inputs<S: Shelf>(
    alloc: Global,
    shelf: &mut S,
    rules: &str,
    source: &Source<'_>,
    ports: bool,
    texts: &mut Texts,
) -> Result<Inputs, Stop>
    ensures told { (said : _) → inputs_told rules.now (source_seen source.now) ports (S.holds shelf.old) ≡ Some said
        → Finds (λ inputs. inputs) result said }
    ensures are { IfOk result (AreRead rules.now (source_seen source.now) ports (S.holds shelf.old)) }
    ensures read { OnlyRead (ending_status result) (InputsFail rules.now (source_seen source.now) (S.holds shelf.old))
        (files (S.holds shelf.old) (S.read_faults shelf.old) (S.write_faults shelf.old)) (files (S.holds shelf.new) (S.read_faults shelf.new) (S.write_faults shelf.new)) }
{
    let rules = load_rules(alloc, shelf, rules, texts)?;
    let read = load_source(alloc, shelf, source, &rules, ports, texts)?;
    Ok(Inputs {
        rules,
        file: read.file,
        designs: read.designs,
    })
}
