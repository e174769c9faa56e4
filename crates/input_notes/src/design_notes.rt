//! Notes on a file that is no design: its PARENT and the calls of it.

use crate::design_again::{
    Design, Terminals, TextsRead, broken_behind, design_again, kind_word, terminals_of,
};
use crate::module_notes::told_of_module;
use crate::yal_notes::module_shown;
use geom_core::Name;
use netlist_core::DesignFault;
use note_text::place_at;
use std::alloc::{AllocError, Global};
use text_places::{Shown, Sought, Told, find, line_of, meant, place_of};
use yal_reader::{Call, Module};

// A design without a PARENT.
fn no_parent(alloc: Global, design: &Design<'_>) -> Result<Told, AllocError> {
    if design.modules().is_empty() {
        return Ok(Told::whole(format!(in alloc;
            "the file has no module; one of TYPE PARENT is wanted, whose NETWORK calls the cells"
        )?));
    }
    Ok(Told::whole(format!(in alloc;
        "no module is of TYPE PARENT; one is wanted, whose NETWORK calls the cells"
    )?))
}

// A design with a second PARENT.
fn many_parents(alloc: Global, design: &Design<'_>) -> Result<Told, AllocError> {
    let first = find(design.text, Sought::Parent(0));
    let second = find(design.text, Sought::Parent(1));
    let one = module_shown(&first.before);
    let other = module_shown(&second.before);
    let line = line_of(design.text, Sought::Parent(0));
    let text = format!(in alloc;
        "{other} is a second module of TYPE PARENT, and {one} at line {line} is the first; one alone may be"
    )?;
    Ok(Told::perhaps_at(place_of(design.text, Sought::Parent(1)), text))
}

// A question whether another module was meant, if there is one whose name is near.
fn module_meant(alloc: Global, design: &Design<'_>, name: &[u8]) -> Result<String, AllocError> {
    let mut names = Vec::new(alloc);
    for module in design.modules() {
        names.push(module.name.items())?;
    }
    meant(alloc, name, names.as_slice())
}

// A call of a module that is not there.
fn unknown_module(alloc: Global, design: &Design<'_>, call: &Call) -> Result<String, AllocError> {
    let name = Shown(call.name.items());
    let module = Shown(call.module.items());
    let near = module_meant(alloc, design, call.module.items())?;
    format!(in alloc; "{name} calls {module}, and no module has this name{near}")
}

// A call of a module that is no cell.
fn not_standard(alloc: Global, design: &Design<'_>, call: &Call) -> Result<String, AllocError> {
    let name = Shown(call.name.items());
    let module = Shown(call.module.items());
    let kind = match design.module_named(call.module.items()) {
        Some((_, module)) => kind_word(module.kind),
        None => "?",
    };
    format!(in alloc;
        "{name} calls {module}, which is of TYPE {kind}; only modules of TYPE STANDARD can be called"
    )
}

// The letter behind a count of several.
fn several(n: usize) -> &'static str {
    if n == 1 { "" } else { "s" }
}

// The names of terminals of power.
fn power_names(alloc: Global, terminals: &Terminals<'_>) -> Result<String, AllocError> {
    let mut text = String::new(alloc);
    for name in terminals.power.iter().take(4) {
        if !text.is_empty() {
            text.push_str(", ")?;
        }
        let name = Shown(*name);
        let piece = format!(in alloc; "{name}")?;
        text.push_str(piece.as_str())?;
    }
    Ok(text)
}

// Where a semicolon is perhaps missing: in the call, or in the lines of its module.
fn broken(
    alloc: Global,
    design: &Design<'_>,
    i: u32,
    called: (usize, &Module),
) -> Result<String, AllocError> {
    let call = place_of(design.text, Sought::Call(i as usize, 1));
    let lines = place_of(design.text, Sought::Line(called.0, 0, 1));
    let count = called.1.lines.items().len();
    for (from, statements) in [(call, 1), (lines, count)] {
        let Some(from) = from else {
            continue;
        };
        if let Some(word) = broken_behind(design.text, from, statements) {
            let line = place_at(design.text, word.at as u64).line;
            let word = Shown(word.text);
            return format!(in alloc;
                "; a ; is perhaps missing behind {word} at the end of line {line}"
            );
        }
    }
    Ok(String::new(alloc))
}

// What would perhaps cure a call with so many signals.
fn signals_cure(
    alloc: Global,
    design: &Design<'_>,
    i: u32,
    signals: usize,
    called: (usize, &Module),
) -> Result<String, AllocError> {
    let terminals = terminals_of(alloc, called.1.lines.items())?;
    let power = terminals.power.len();
    if power > 0 && signals.saturating_add(power) == terminals.all.len() {
        let names = power_names(alloc, &terminals)?;
        let letter = several(power);
        return format!(in alloc; "; a signal is wanted for its power terminal{letter} {names} too");
    }
    broken(alloc, design, i, called)
}

// A call with another number of signals than its module has terminals.
fn signal_count(
    alloc: Global,
    design: &Design<'_>,
    i: u32,
    call: &Call,
) -> Result<String, AllocError> {
    let name = Shown(call.name.items());
    let module = Shown(call.module.items());
    let given = call.signals.items().len();
    let signals = several(given);
    let Some(called) = design.module_named(call.module.items()) else {
        return format!(in alloc; "{name} calls {module} with {given} signal{signals}");
    };
    let wanted = terminals_of(alloc, called.1.lines.items())?.all.len();
    let terminals = several(wanted);
    let cure = signals_cure(alloc, design, i, given, called)?;
    format!(in alloc;
        "{name} calls {module}, which has {wanted} terminal{terminals}, but gives {given} signal{signals}{cure}"
    )
}

// What is wrong with a call, by its number.
fn told_of_call(
    alloc: Global,
    design: &Design<'_>,
    fault: DesignFault,
    i: u32,
) -> Result<Told, AllocError> {
    let Some(call) = design.call(i) else {
        return plain(alloc);
    };
    let text = match fault {
        DesignFault::UnknownModule(_) => unknown_module(alloc, design, call)?,
        DesignFault::NotStandard(_) => not_standard(alloc, design, call)?,
        _ => signal_count(alloc, design, i, call)?,
    };
    let place = place_of(design.text, Sought::Call(i as usize, 2));
    Ok(Told::perhaps_at(place, text))
}

/// That a design is refused, where no more can be told.
pub(crate) fn plain(alloc: Global) -> Result<Told, AllocError> {
    Ok(Told::whole(format!(in alloc; "the design is refused")?))
}

/// What is wrong with a file that is no design.
pub fn told_of_design(
    alloc: Global,
    read: TextsRead<'_>,
    fault: DesignFault,
) -> Result<Told, AllocError> {
    let Some(design) = design_again(alloc, read) else {
        return plain(alloc);
    };
    match fault {
        DesignFault::NoParent => no_parent(alloc, &design),
        DesignFault::ManyParents => many_parents(alloc, &design),
        DesignFault::UnknownModule(i) | DesignFault::NotStandard(i) | DesignFault::SignalCount(i) =>
            told_of_call(alloc, &design, fault, i),
        DesignFault::NoShape(n)
        | DesignFault::OffGrid(n)
        | DesignFault::TooLow(n)
        | DesignFault::PinClash(n)
        | DesignFault::WrongLayer(n) => told_of_module(alloc, &design, fault, n),
        DesignFault::Limit(..) | DesignFault::Memory => plain(alloc),
    }
}

/// A name of the design that its ports would have.
pub fn told_of_port_clash(
    alloc: Global,
    read: TextsRead<'_>,
    name: &Name,
) -> Result<Told, AllocError> {
    let text = read.design.unwrap_or(&[]);
    let shown = Shown(name.items());
    if name.items().starts_with(b"port:") {
        let what = format!(in alloc;
            "an instance is named {shown}, as --ports names one of its own; another name is wanted"
        )?;
        return Ok(Told::perhaps_at(place_of(text, Sought::Calling(name.items())), what));
    }
    let what = format!(in alloc;
        "a module is named {shown}, as --ports names one of its own; another name is wanted"
    )?;
    Ok(Told::perhaps_at(place_of(text, Sought::Named(name.items())), what))
}
