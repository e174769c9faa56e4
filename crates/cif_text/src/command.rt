//! The commands of CIF: box, layer, start and finish of a definition, call, comment, user command and end.

use geom_core::{Corner, Items, LayerName, Name};

/// What a user command of a CIF text is for (CIF 2.0 leaves these commands, which begin with a digit, to their users).
#[derive(Clone, Copy, Debug, PartialEq, Eq)]
pub enum UserKind {
    /// `9 name;`, which names the symbol in whose definition it stands.
    SymbolName,
    /// `91 name;`, which names the call that is the next command.
    InstanceName,
    /// `94 text;`, a label, as KLayout and Magic write and read it: its name and its place, on the present layer. A layout is without it.
    Label,
    /// Any other user command.
    Other,
}

/// A command of a CIF text (Mead and Conway's CIF 2.0). Its numbers are those of the text, in centimicrons before any scale.
#[derive(Debug, Drop)]
pub enum CifCommand {
    /// A box of a length and a width, each above 0, with its centre at (`cx`, `cy`). The length lies along y where
    /// `upright` is set, else along x.
    Box {
        length: i64,
        width: i64,
        cx: i64,
        cy: i64,
        upright: bool,
    },
    /// A wire of a width above 0 along a path of one point or more, of which two that follow one another have the same x or
    /// the same y.
    Wire {
        width: i64,
        path: Items<Corner>,
    },
    /// A polygon with three corners or more, of which two that follow one another, the last and the first among them, have
    /// the same x or the same y.
    Polygon {
        path: Items<Corner>,
    },
    /// The layer of the boxes, wires and polygons that follow.
    Layer(LayerName),
    /// The definition of symbol `n` starts; its numbers count as `a / b` centimicrons each, with both above 0.
    Start {
        n: u64,
        a: u64,
        b: u64,
    },
    /// The definition that was started finishes.
    Finish,
    /// A copy of symbol `n`: x is negated where `flip` is set, then come `quarters` turns by 90 degrees
    /// counter-clockwise, 0 to 3 of them, and then the offset (`dx`, `dy`).
    Call {
        n: u64,
        flip: bool,
        quarters: u8,
        dx: i64,
        dy: i64,
    },
    /// A comment.
    Comment,
    /// A user command: what it is for, and its text.
    User {
        kind: UserKind,
        text: Name,
    },
    /// The end of the text.
    End,
}
