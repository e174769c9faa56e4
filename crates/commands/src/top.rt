//! The top call: a command's words, a shelf with the files, a sink for lines, and one for notes.

ghost use Rattle.commands.specs.Causes.{IsQuiet, ReadFails, WriteFails};
ghost use Rattle.command_words.specs.Command as asked;
ghost use Rattle.command_words.specs.Command.{CheckNames, DrawNames, ImportNames, Names, command_of, is_quiet, style_of, writes_of};
ghost use Rattle.commands.specs.Done.{IsStatusOf};
ghost use Rattle.commands.specs.Drawn.{IsPictureOf};
ghost use Rattle.commands.specs.Imported.{IsImportOf};
ghost use Rattle.commands.specs.Noted.{Noted};
ghost use Rattle.commands.specs.Headline.{Headline, HeadlineSo, PortedHeadline};
ghost use Rattle.command_inputs.specs.Origin.{IsSourceText};
ghost use Rattle.commands.specs.Outcome.{AreKept, EndsAs, Holds, HoldsFront, IsMarked};
ghost use Rattle.command_ends.specs.Gains.{Gains};
ghost use Rattle.command_ends.specs.Line.{line_of};
ghost use Rattle.command_ends.specs.Status.{is_status};
ghost use Rattle.command_ends.specs.declared.stop.Stop.TheVariants.{WriteFault};
ghost use Rattle.commands.specs.Verdict.{Comes, verdict};
ghost use Rattle.shelf_io.specs.Count.{Still};
ghost use Rattle.std.specs.Prelude.{◌≡◌, ◌≢◌, ◌⊎◌, ◌<◌, ◌≤◌, List, [], ℕ, length, map, Some, None, true};

use crate::doing::carry_out;
use crate::forewarning::forewarn;
use crate::heard::Heard;
use crate::report::report;
use crate::telling::tell;
use crate::watching::{Progress, wishes_progress};
use choose_core::{Chooser, Chooses, Style};
use command_words::Word;
use greedy_router::Routed;
use shelf_io::{Shelf, Sink};
use std::alloc::Global;

/// How a command ended.
#[derive(Debug, Drop)]
pub struct Ended {
    /// 0 where the text is written, or the layout is good; 1 where the layout is not good; 2 where the words are no command; 3, 4, 5 and 7 where the
    /// file of a design, of a netlist or of its cells, the rules file, the design or the netlist, or the layout's file is refused; 6 where a limit is passed; 8 and 9 where reading and
    /// writing failed; 10 for want of memory.
    pub status: u8,
    /// On 0 and 9 of a command to route the routed channels of the layout, from the lowest up, whose wirings are those of the text; else none.
    pub kept: Vec<Routed>,
}

/// Does the command that the words give.
///
/// `route DESIGN RULES OUT [--seed N] [--rows K] [--tries N] [--style NAME] [--edge] [--ports] [--labels] [--progress] [-q]` reads the rules from the file RULES and the design in YAL from
/// the file DESIGN, sets its cells in K rows, from 1 to 512, or in as many as make the layout about square, anneals the rows as the rules
/// say with the seed N, below 2^64, or 1, sets feeds where nets cross rows, joins each net by wires in the channels between the rows, by the
/// choices of the first of the styles that has the name NAME, or of the first of all, writes the layout in CIF into the file OUT, and prints it in
/// short. There are one to sixteen styles. With `--edge` channels without vertical constraints are routed by the left edges of their nets, and with `--ports` the terminals of the
/// design's PARENT become cells, which are not annealed: the inputs in a further row below, the outputs in one above, each wired to its net. With `--labels` the text has labels with the names of cells and nets, which
/// mean nothing for the layout. With `--tries N`, 1 to 64, the first of N
/// placements whose layout is estimated to have the least area is routed; their seeds go up from the one that is given, and without `--rows` their rows by a list.
///
/// `make SEED N RULES OUT` does so for a design of N instances, from 1 to 20,000, that is made under the rules from SEED, which also anneals, in rows as
/// usual and by the first of the styles.
///
/// `check DESIGN RULES CIF [--markers FILE] [--ports] [-q]` reads the rules and the design as `route` does, and a layout from the file CIF, and prints a line for each thing that is
/// wrong with the layout for this design under these rules, and then a line with their number: status 0 where there is none, and else 1. With `--markers` it writes the same as a
/// report database of KLayout into FILE, before it prints.
///
/// `draw CIF OUT [--box X0,Y0,X1,Y1] [--rules RULES] [-q]` reads the rules, if they are given, and a layout as `check` does, and writes a picture of it, or of the part in the box, which is in
/// microns, into the file OUT, as a text of SVG 1.1; with rules the legend says what its layers are for. It prints nothing.
///
/// `import BLIF CELLS OUT [--decimals D] [-q]` reads a netlist in BLIF and the modules of its cells in YAL, whose numbers have up to D decimals, 0 to 4, or none, and writes the text of CELLS
/// and behind it a PARENT with the model's terminals and a call for each gate into the file OUT. It prints nothing.
///
/// `help`, `--help` and `-h` print the commands in short, `help` and a command's name that command with its options, `version` and `--version` the version of the program.
///
/// Every status but 0 and 1 prints one line, with the first cause, to the sink; if that fails the status stays. Where printing what was done or found fails,
/// the line `write fault` is tried and the status is 9.
///
/// To `notes` go lines for people: warnings of names before anything is read, and at the end what is unusual, what was found or made, or where and why the command was stopped. With `-q`
/// (`--quiet`) there are none. With `--progress` `route` and `make` tell there, as they go, how far they have come, in at most 33 lines for each of annealing, routing and writing.
/// Whatever becomes of them, statuses, lines, files and kept channels are the same.
///
/// What may refuse comes in this order: the words, reading RULES, the rules, reading DESIGN, YAL, the design, its ports, and then the
/// limits of moves, grid, width and height, writing OUT, printing; or reading CIF, its text, its commands, checking, writing FILE, printing. `draw` has reading RULES, the rules, reading CIF,
/// its text, its commands, the limit of pictures, writing OUT; `import` reading BLIF, its text, reading CELLS, YAL, the netlist over its cells, writing OUT. Where the shelf tells the files that it
/// comes to, the status is that of the verdict on them, unless it is 8 and a read count rose, 9 and OUT's or FILE's write count or the sink's rose, or 10. On 0 OUT holds the text
/// of the job with the wirings that are kept. Every status but 0, 1 and 9 leaves all files as they were; after 9 OUT or FILE holds what it held, or a front of the
/// text, which is all of it where its write count did not rise. `check` leaves all files but FILE as they were. 10 may come for want of memory at any time before OUT or FILE is
/// begun, or anything is printed.
pub fn run<S: Shelf, K: Sink, N: Sink>(
    alloc: Global,
    words: &[Word],
    shelf: &mut S,
    out: &mut K,
    notes: &mut N,
    styles: &[Style],
) -> Ended
    requires some { 0 < length styles.now }
    requires few { length styles.now ≤ 16 }
    ensures listed { is_status result.status ≡ true }
    ensures usage { result.status ≡ 2 → command_of (map (λ s. s.chooser.name) styles.now) words.now ≡ None }
    ensures no_command { command_of (map (λ s. s.chooser.name) styles.now) words.now ≡ None → (result.status ≡ 2) ⊎ (result.status ≡ 10) }

    // The status and the lines: both are of one end, which is the verdict's wherever the files that it comes to are told.
    ensures ends { EndsAs (verdict (map (λ s. s.chooser.name) styles.now) words.now (S.holds shelf.old)) result.kept.items result.status
        (K.written out.old) (K.written out.new) (K.faults out.old) (K.faults out.new) }

    // Status 0 and 9 of a command that writes: each channel of the job is routed by the choices of the command's style; else there is none.
    ensures kept { (command : asked.Command) (said : _) (file : List ℕ) → Comes (map (λ s. s.chooser.name) styles.now) words.now (S.holds shelf.old) command said
        → writes_of command ≡ Some file → (result.status ≡ 0) ⊎ (result.status ≡ 9)
        → AreKept styles.now (λ s. s.plan) (λ s. ⟦<Chooser as Chooses>⟧.answers s.chooser) command said result.kept.items }
    ensures none { result.status ≢ 0 → result.status ≢ 9 → result.kept.items ≡ [] }
    ensures unkept { (command : asked.Command) → command_of (map (λ s. s.chooser.name) styles.now) words.now ≡ Some command
        → style_of command ≡ None → result.kept.items ≡ [] }

    // Status 1 is never that of a command to route.
    ensures laid { (names : Names) → command_of (map (λ s. s.chooser.name) styles.now) words.now ≡ Some (asked.route names) → result.status ≢ 1 }

    // Status 0 and 1: the file that the command writes, where the shelf tells it, holds exactly the text of the job with the wirings of these channels, the report database of
    // what is wrong with the layout, the picture of a layout, or the cells and the PARENT of a netlist.
    ensures written { (command : asked.Command) (said : _) (file : List ℕ) → Comes (map (λ s. s.chooser.name) styles.now) words.now (S.holds shelf.old) command said → writes_of command ≡ Some file
        → (result.status ≡ 0) ⊎ (result.status ≡ 1) → Holds said result.kept.items (S.holds shelf.new file) }

    // Status 0 and 1 of `check` with a file for markers: where it is told, it holds the report database of just the findings whose lines are printed.
    ensures marked { (names : CheckNames) (file : List ℕ) → command_of (map (λ s. s.chooser.name) styles.now) words.now ≡ Some (asked.check names) → names.markers ≡ Some file
        → (result.status ≡ 0) ⊎ (result.status ≡ 1) → IsMarked (S.holds shelf.new file) (K.written out.old) (K.written out.new) }

    // The headline: what `route` writes reads as a layout that is good for the design under the rules, with its ports where these are wished for, and so does what
    // `make` writes for the design that it makes.
    ensures headline { (names : Names) (stated bytes held : List ℕ) → command_of (map (λ s. s.chooser.name) styles.now) words.now ≡ Some (asked.route names)
        → S.holds shelf.old names.rules ≡ Some stated → IsSourceText names.design (S.holds shelf.old) stated bytes
        → result.status ≡ 0 → S.holds shelf.new names.out ≡ Some held → Headline names.wanted.ports stated bytes held }

    // Ports stand at the edges: those of the lower edge in the lowest row, and those of the upper edge in the highest.
    ensures edges { (names : Names) (stated bytes held : List ℕ) → command_of (map (λ s. s.chooser.name) styles.now) words.now ≡ Some (asked.route names)
        → names.wanted.ports ≡ true → S.holds shelf.old names.rules ≡ Some stated → IsSourceText names.design (S.holds shelf.old) stated bytes
        → result.status ≡ 0 → S.holds shelf.new names.out ≡ Some held → PortedHeadline stated bytes held }

    // What `check` says of a layout, read by its labels where these are to tell the cells: with status 0 that it is so, with status 1 that it is not.
    ensures good { (names : CheckNames) (stated bytes text : List ℕ) → command_of (map (λ s. s.chooser.name) styles.now) words.now ≡ Some (asked.check names)
        → S.holds shelf.old names.rules ≡ Some stated → S.holds shelf.old names.design ≡ Some bytes → S.holds shelf.old names.cif ≡ Some text
        → result.status ≡ 0 → HeadlineSo names.labels names.ports stated bytes text }
    ensures faulty { (names : CheckNames) (stated bytes text : List ℕ) → command_of (map (λ s. s.chooser.name) styles.now) words.now ≡ Some (asked.check names)
        → S.holds shelf.old names.rules ≡ Some stated → S.holds shelf.old names.design ≡ Some bytes → S.holds shelf.old names.cif ≡ Some text
        → result.status ≡ 1 → HeadlineSo names.labels names.ports stated bytes text → ⊥ }

    // What `draw` writes is the picture of the layout as which CIF reads.
    ensures drawn { (names : DrawNames) (text held : List ℕ) → command_of (map (λ s. s.chooser.name) styles.now) words.now ≡ Some (asked.draw names)
        → S.holds shelf.old names.cif ≡ Some text → result.status ≡ 0 → S.holds shelf.new names.out ≡ Some held → IsPictureOf names.part text held }

    // What `import` writes reads as the modules of CELLS and a PARENT that carries the netlist.
    ensures imported { (names : ImportNames) (netlist cells held : List ℕ) → command_of (map (λ s. s.chooser.name) styles.now) words.now ≡ Some (asked.import names)
        → S.holds shelf.old names.netlist ≡ Some netlist → S.holds shelf.old names.cells ≡ Some cells → result.status ≡ 0 → S.holds shelf.new names.out ≡ Some held
        → IsImportOf names.decimals netlist cells held }

    // Status 9 of a command that writes: there is something to write, and the file to write holds what it held, or a front of that text; all of it where its count did not
    // rise.
    ensures front { (command : asked.Command) (said : _) (file : List ℕ) → Comes (map (λ s. s.chooser.name) styles.now) words.now (S.holds shelf.old) command said → writes_of command ≡ Some file
        → result.status ≡ 9 → HoldsFront said result.kept.items (S.holds shelf.old file) (S.holds shelf.new file) }

    ensures whole { (command : asked.Command) (said : _) (file : List ℕ) → Comes (map (λ s. s.chooser.name) styles.now) words.now (S.holds shelf.old) command said → writes_of command ≡ Some file
        → result.status ≡ 9 → Still (S.write_faults shelf.old file) (S.write_faults shelf.new file)
        → Holds said result.kept.items (S.holds shelf.new file) }

    // Status 8 and 9 come only where a count rose, and where it rose they come.
    ensures read_cause { (command : asked.Command) → command_of (map (λ s. s.chooser.name) styles.now) words.now ≡ Some command → result.status ≡ 8
        → ReadFails command (S.holds shelf.old) (S.read_faults shelf.old) (S.read_faults shelf.new) }
    ensures write_cause { (command : asked.Command) → command_of (map (λ s. s.chooser.name) styles.now) words.now ≡ Some command → result.status ≡ 9
        → WriteFails (writes_of command) (S.write_faults shelf.old) (S.write_faults shelf.new) (K.faults out.old) (K.faults out.new) }
    // Where the write count of the file to write rose, the line `write fault` alone is printed, as far as the sink takes it.
    ensures fault { (command : asked.Command) (file : List ℕ) → command_of (map (λ s. s.chooser.name) styles.now) words.now ≡ Some command
        → writes_of command ≡ Some file → S.write_faults shelf.old file < S.write_faults shelf.new file
        → Gains (line_of WriteFault) (K.written out.old) (K.written out.new) (K.faults out.old) (K.faults out.new) }
    ensures reads { result.status ≢ 8 → S.read_faults shelf.new ≡ S.read_faults shelf.old }
    ensures writes { result.status ≢ 9 → S.write_faults shelf.new ≡ S.write_faults shelf.old }

    // Nothing is lost, and a command that writes no file leaves them all as they are.
    ensures untouched { result.status ≢ 0 → result.status ≢ 1 → result.status ≢ 9 → S.holds shelf.new ≡ S.holds shelf.old }
    ensures others { (command : asked.Command) (other : List ℕ) → command_of (map (λ s. s.chooser.name) styles.now) words.now ≡ Some command
        → writes_of command ≢ Some other → S.holds shelf.new other ≡ S.holds shelf.old other }
    ensures files { (command : asked.Command) → command_of (map (λ s. s.chooser.name) styles.now) words.now ≡ Some command
        → writes_of command ≡ None → S.holds shelf.new ≡ S.holds shelf.old }
    ensures unwritten { (command : asked.Command) → command_of (map (λ s. s.chooser.name) styles.now) words.now ≡ Some command
        → writes_of command ≡ None → S.write_faults shelf.new ≡ S.write_faults shelf.old }

    // Where nothing fails the status is the verdict's, want of memory aside.
    ensures complete { (command : asked.Command) (said : _) → Comes (map (λ s. s.chooser.name) styles.now) words.now (S.holds shelf.old) command said
        → IsQuiet command (S.read_faults shelf.old) (S.read_faults shelf.new) (S.write_faults shelf.old) (S.write_faults shelf.new)
        (K.faults out.old) (K.faults out.new)
        → IsStatusOf said result.status ⊎ (result.status ≡ 10) }

    // The notes, for people, are lines, and there are none where the command wishes for none. Whatever becomes of them, all else is as it is said here.
    ensures notes { Noted (N.written notes.old) (N.written notes.new) (N.faults notes.old) (N.faults notes.new) }
    ensures quiet { (command : asked.Command) → command_of (map (λ s. s.chooser.name) styles.now) words.now ≡ Some command → is_quiet command ≡ true
        → notes.new ≡ notes.old }

    // Status 0 and 1 come only where the sink took all.
    ensures calm { (result.status ≡ 0) ⊎ (result.status ≡ 1) → K.faults out.new ≡ K.faults out.old }
{
    let mut kept = Vec::new(alloc);
    let mut heard = Heard::new(alloc);
    let forewarned = forewarn(alloc, words, styles, notes);
    let wished = wishes_progress(alloc, words, styles);
    let mut watch = Progress::new(notes, wished, forewarned);
    let ending = carry_out(
        alloc, words, shelf, styles, &mut heard, &mut kept, &mut watch,
    );
    let going = watch.is_going();
    let status = report(out, &ending);
    let Heard {
        texts,
        notes: noted,
    } = heard;
    tell(
        alloc, words, styles, &texts, noted, &ending, status, going, notes,
    );
    Ended { status, kept }
}
