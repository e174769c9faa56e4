//! The files that a command speaks of, by their names.

use crate::noting::Subject;
use crate::reached::Reached;
use command_words::{Command, Source};

/// One of the files of a command.
#[derive(Clone, Copy, PartialEq, Eq)]
pub(crate) enum FileOf {
    Rules,
    Design,
    /// The layout that is read.
    Layout,
    /// The layout that is written.
    Out,
    /// The netlist that comes in.
    Netlist,
    /// The modules of its cells.
    Cells,
}

// The name of a design by its source.
fn source_name<'a>(source: &Source<'a>) -> &'a str {
    match source {
        Source::File(name) => *name,
        Source::Made(..) => "the design that is made",
    }
}

// The name of a file of a command.
fn name_of<'a>(command: &Command<'a>, file: FileOf) -> &'a str {
    match command {
        Command::Route(names) => match file {
            FileOf::Rules => names.rules,
            FileOf::Design => source_name(&names.design),
            _ => names.out,
        },
        Command::Check(names) => match file {
            FileOf::Rules => names.rules,
            FileOf::Design => names.design,
            FileOf::Out => names.markers.unwrap_or(names.cif),
            _ => names.cif,
        },
        Command::Draw(names) => match file {
            FileOf::Rules => names.rules.unwrap_or("RULES"),
            FileOf::Out => names.out,
            _ => names.cif,
        },
        Command::Import(names) => match file {
            FileOf::Cells => names.cells,
            FileOf::Out => names.out,
            _ => names.netlist,
        },
        Command::Help(_) => "",
    }
}

// What stands for a file's name where there is no command.
fn nameless(file: FileOf) -> &'static str {
    match file {
        FileOf::Rules => "RULES",
        FileOf::Design => "DESIGN",
        FileOf::Layout => "CIF",
        FileOf::Out => "OUT",
        FileOf::Netlist => "BLIF",
        FileOf::Cells => "CELLS",
    }
}

/// A file of a command, with its text if it was read.
pub(crate) fn subject_of<'a>(reached: &Reached<'a>, file: FileOf) -> Subject<'a> {
    let name = match &reached.command {
        Some(command) => name_of(command, file),
        None => nameless(file),
    };
    let text = match file {
        FileOf::Rules => reached.rules,
        FileOf::Design => reached.design,
        FileOf::Layout => reached.cif,
        FileOf::Out => None,
        FileOf::Netlist => reached.netlist,
        FileOf::Cells => reached.cells,
    };
    Subject { name, text }
}

/// Whether a command makes its design.
pub(crate) fn is_made(reached: &Reached<'_>) -> bool {
    match &reached.command {
        Some(Command::Route(names)) => match &names.design {
            Source::Made(..) => true,
            Source::File(_) => false,
        },
        _ => false,
    }
}

/// Whether a command wants ports.
pub(crate) fn wants_ports(reached: &Reached<'_>) -> bool {
    match &reached.command {
        Some(Command::Route(names)) => names.wanted.ports,
        Some(Command::Check(names)) => names.ports,
        _ => false,
    }
}

/// Whether a command asks for a number of rows.
pub(crate) fn wants_rows(reached: &Reached<'_>) -> bool {
    match &reached.command {
        Some(Command::Route(names)) => names.wanted.rows.is_some(),
        _ => false,
    }
}

/// Of how many placements a command takes the best.
pub(crate) fn tries_of(reached: &Reached<'_>) -> u32 {
    match &reached.command {
        Some(Command::Route(names)) => names.wanted.tries.get(),
        _ => 1,
    }
}

/// Whether a command asks for a part of a layout.
pub(crate) fn wants_part(reached: &Reached<'_>) -> bool {
    match &reached.command {
        Some(Command::Draw(names)) => names.part.is_some(),
        _ => false,
    }
}

/// Up to how many decimals the numbers of cells have by a command.
pub(crate) fn decimals_of(reached: &Reached<'_>) -> u32 {
    match &reached.command {
        Some(Command::Import(names)) => names.decimals,
        _ => 0,
    }
}

/// Whether a command imports a netlist.
pub(crate) fn is_import(reached: &Reached<'_>) -> bool {
    matches!(&reached.command, Some(Command::Import(_)))
}

/// Whether a command draws a picture.
pub(crate) fn is_draw(reached: &Reached<'_>) -> bool {
    matches!(&reached.command, Some(Command::Draw(_)))
}

/// The words of a command that reads rules.
pub(crate) fn rules_words(reached: &Reached<'_>) -> &'static str {
    if is_draw(reached) {
        "draw CIF OUT --rules RULES"
    } else {
        "route DESIGN RULES OUT, and check DESIGN RULES CIF"
    }
}

/// The words of a command that reads a layout.
pub(crate) fn layout_words(reached: &Reached<'_>) -> &'static str {
    if is_draw(reached) {
        "draw CIF OUT"
    } else {
        "check DESIGN RULES CIF"
    }
}

// Whether a command reads rules.
fn reads_rules(reached: &Reached<'_>) -> bool {
    match &reached.command {
        Some(Command::Draw(names)) => names.rules.is_some(),
        _ => true,
    }
}

// The file of a netlist or of its cells that could not be read.
fn unread_of_import(reached: &Reached<'_>) -> FileOf {
    if reached.netlist.is_none() {
        return FileOf::Netlist;
    }
    FileOf::Cells
}

/// The file that could not be read: the first whose text there is none of.
pub(crate) fn unread(reached: &Reached<'_>) -> FileOf {
    if is_import(reached) {
        return unread_of_import(reached);
    }
    if reached.rules.is_none() && reads_rules(reached) {
        return FileOf::Rules;
    }
    if reached.design.is_none() && !is_made(reached) && !is_draw(reached) {
        return FileOf::Design;
    }
    FileOf::Layout
}
