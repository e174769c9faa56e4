//! How far a command has come.

use crate::naming::decimals_of;
use choose_core::Style;
use command_words::{Command, Word};
use input_notes::{NetlistRead, TextsRead};

/// How far a command has come: its words, the styles that there are, the command that the words give, if they give one, and the texts that it has read.
#[derive(Clone, Copy)]
pub struct Reached<'a> {
    pub words: &'a [Word],
    pub styles: &'a [Style],
    pub command: Option<Command<'a>>,
    /// The text of the rules file.
    pub rules: Option<&'a [u8]>,
    /// The text of the design's file, or the one that was made.
    pub design: Option<&'a [u8]>,
    /// The text of the layout's file.
    pub cif: Option<&'a [u8]>,
    /// The text of the file of a netlist that comes in.
    pub netlist: Option<&'a [u8]>,
    /// The text of the file of its cells.
    pub cells: Option<&'a [u8]>,
}

impl<'a> Reached<'a> {
    // The texts of rules and of a design that it has read.
    pub(crate) fn read(&self) -> TextsRead<'a> {
        TextsRead {
            rules: self.rules,
            design: self.design,
        }
    }

    // The texts of a netlist and of its cells that it has read.
    pub(crate) fn netlist_read(&self) -> NetlistRead<'a> {
        NetlistRead {
            netlist: self.netlist,
            cells: self.cells,
            decimals: decimals_of(self),
        }
    }
}
