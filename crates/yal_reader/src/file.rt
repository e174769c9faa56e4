//! A YAL file: its modules, with corners, lines of terminals and calls.

use geom_core::{Items, Name};

/// The type of a module.
#[derive(Clone, Copy, Debug, PartialEq, Eq)]
pub enum Kind {
    Standard,
    Pad,
    General,
    Parent,
}

/// The flow of a terminal: into the module, out of it, both ways, the same three at a pad, a feed through, or power and ground.
#[derive(Clone, Copy, Debug, PartialEq, Eq)]
pub enum Flow {
    I,
    O,
    B,
    PI,
    PO,
    PB,
    F,
    PWR,
    GND,
}

/// Where a terminal can be reached, in units, and the word for its layer.
#[derive(Debug, Drop)]
pub struct Spot {
    pub x: i64,
    pub y: i64,
    pub layer: Name,
}

/// One line of an IOLIST: a terminal with its flow, and a spot in a STANDARD module where the flow is not power.
#[derive(Debug, Drop)]
pub struct Line {
    pub name: Name,
    pub flow: Flow,
    pub spot: Option<Spot>,
}

/// One call of a NETWORK: an instance, its module and a signal word for each terminal.
#[derive(Debug, Drop)]
pub struct Call {
    pub name: Name,
    pub module: Name,
    pub signals: Items<Name>,
}

/// A module: its numbers after DIMENSIONS where it is STANDARD, its lines where it is STANDARD or PARENT, its calls where it is
/// PARENT, each in the order of the text.
#[derive(Debug, Drop)]
pub struct Module {
    pub name: Name,
    pub kind: Kind,
    pub corners: Items<i64>,
    pub lines: Items<Line>,
    pub calls: Items<Call>,
}

/// A YAL file: its modules in the order of the text.
#[derive(Debug, Drop)]
pub struct YalFile {
    pub modules: Items<Module>,
}
