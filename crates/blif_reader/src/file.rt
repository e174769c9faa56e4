//! A BLIF file: one model with its terminals, gates, and words that are one net.

use geom_core::{Items, Name};

/// A word, and the byte of the text at which it stands, from 0.
#[derive(Debug, Drop)]
pub struct BlifWord {
    pub text: Name,
    pub at: u64,
}

/// A pin of a gate: a terminal of its module, the word of the net, and the byte at which both stand.
#[derive(Debug, Drop)]
pub struct Pin {
    pub terminal: Name,
    pub net: Name,
    pub at: u64,
}

/// A gate: its module and the byte at which that stands, the name that a `.cname` gives it, and its pins in the order of the text.
#[derive(Debug, Drop)]
pub struct Gate {
    pub module: Name,
    pub at: u64,
    pub name: Option<BlifWord>,
    pub pins: Items<Pin>,
}

/// Two words that are one net.
#[derive(Debug, Drop)]
pub struct Join {
    pub first: BlifWord,
    pub second: BlifWord,
}

/// A BLIF file: its one model's name, the words of its inputs and outputs, its gates, the words that are joined, and those of constant nets, each in the order
/// of the text.
#[derive(Debug, Drop)]
pub struct BlifFile {
    pub model: BlifWord,
    pub inputs: Items<BlifWord>,
    pub outputs: Items<BlifWord>,
    pub gates: Items<Gate>,
    pub joins: Items<Join>,
    pub constants: Items<BlifWord>,
}
