//! Sample modules and modules at fault, by name, and designs of them.

use design_model::Design;
use samples::{BUFFER, DRIVER, INVERTER, SampleFault, THROUGH, designed};
use std::alloc::{AllocError, Global};

/// A cell whose corners cross over.
const BOW: &str =
    "MODULE BOW; TYPE STANDARD; DIMENSIONS 0 0 8 40 8 0 0 40; IOLIST; a I 4 0 3 POLY; ENDIOLIST; ENDMODULE;";

/// A cell with a terminal between the columns.
const OFF: &str =
    "MODULE OFF; TYPE STANDARD; DIMENSIONS 0 0 8 0 8 40 0 40; IOLIST; a I 5 0 3 POLY; ENDIOLIST; ENDMODULE;";

/// A cell that is lower than two pins and a space.
const LOW: &str =
    "MODULE LOW; TYPE STANDARD; DIMENSIONS 0 0 8 0 8 10 0 10; IOLIST; a I 4 0 3 POLY; ENDIOLIST; ENDMODULE;";

/// A cell with two terminals at one point.
const CLASH: &str =
    "MODULE CLASH; TYPE STANDARD; DIMENSIONS 0 0 8 0 8 40 0 40; IOLIST; a I 4 0 3 POLY; b I 4 0 3 POLY; ENDIOLIST; ENDMODULE;";

/// A cell with a terminal on another layer.
const METAL: &str =
    "MODULE METAL; TYPE STANDARD; DIMENSIONS 0 0 8 0 8 40 0 40; IOLIST; a I 4 0 3 POLYS; ENDIOLIST; ENDMODULE;";

/// A pad.
const PAD: &str =
    "MODULE PAD; TYPE PAD; DIMENSIONS 0 0 8 0 8 40 0 40; IOLIST; ENDIOLIST; ENDMODULE;";

/// A PARENT without calls.
const OTHER: &str =
    "MODULE OTHER; TYPE PARENT; DIMENSIONS 0 0 8 0 8 40 0 40; IOLIST; ENDIOLIST; NETWORK; ENDNETWORK; ENDMODULE;";

/// A module with corners that cross over and nothing else.
const BARE: &str = "MODULE BOW; TYPE STANDARD; DIMENSIONS 0 0 8 40 8 0 0 40; ENDMODULE;";

/// The text of a module.
fn module(name: &str) -> &'static str {
    match name {
        "INV" => INVERTER,
        "BUF" => BUFFER,
        "DRV" => DRIVER,
        "THR" => THROUGH,
        "BOW" => BOW,
        "OFF" => OFF,
        "LOW" => LOW,
        "CLASH" => CLASH,
        "METAL" => METAL,
        "PAD" => PAD,
        "OTHER" => OTHER,
        "BARE" => BARE,
        _ => "",
    }
}

/// The text of modules with blanks between their names.
fn modules(alloc: Global, names: &str) -> Result<String, AllocError> {
    let mut text = String::new(alloc);
    for name in names.split(' ') {
        text.push_str(module(name))?;
    }
    Ok(text)
}

/// The design of modules and calls with a stroke between them, as `INV | u INV a;`.
pub(crate) fn design_in(alloc: Global, text: &str) -> Result<Design, SampleFault> {
    let (names, calls) = text.split_once(" | ").unwrap_or(("", text));
    let modules = modules(alloc, names)?;
    designed(alloc, modules.as_str(), calls)
}

/// Why there is no such design; nothing where there is one.
pub(crate) fn refusal(
    alloc: Global,
    design: &Result<Design, SampleFault>,
) -> Result<String, AllocError> {
    match design {
        Ok(_) => Ok(String::new(alloc)),
        Err(SampleFault::Memory) => Err(AllocError),
        Err(SampleFault::Design(fault)) => format!(in alloc; "{fault:?}"),
        Err(other) => format!(in alloc; "{other:?}"),
    }
}
