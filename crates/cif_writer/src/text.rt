//! A text in CIF that goes to a sink as it is made.

ghost use Rattle.cif_text.specs.Printing.{line, text_of};
ghost use Rattle.cif_text.specs.Written.{copy_commands, label_commands, shape_commands, symbol_commands};
ghost use Rattle.cif_text.specs.declared.command.CifCommand.TheVariants as commands;
ghost use Rattle.cif_writer.specs.LabelParts.{IsExtentInTwiceReach};
ghost use Rattle.geom_core.specs.Reach.{IsShapeInReach};
ghost use Rattle.shelf_io.specs.Wrote.{Puts, Writes};
ghost use Rattle.std.specs.List.{AllByRecursion};
ghost use Rattle.std.specs.Prelude.{◌≡◌, ◌++◌, None, Some, option_map};

use crate::printing::{put_command, put_copy, put_label, put_shape, put_symbol};
use cif_text::{CifCommand, print_command};
use geom_core::{LayerName, Name, Place, Shape};
use shelf_io::{Buffer, Failed, Sink};
use std::marker::Model;

/// A text in CIF that is put to a sink as it is made, in pieces of 4,096 bytes. All calls for one text are given the same sink. It holds what is not put yet,
/// fewer than 4,096 bytes, and the layer that was written last at this level. No call takes memory.
#[derive(Debug, Drop)]
pub(crate) struct Text {
    buffer: Buffer,
    last: Option<LayerName>,
}

impl Model for Text {
    ghost use Rattle.cif_writer.specs.Begun.{Begun};

    ghost Value = { Begun };

    ghost view = { λ text. record { buffered = text.buffer; last = text.last } };
}

impl Text {
    /// A text with the line `(cellroute 1);`, which is buffered.
    pub(crate) fn begin() -> Text
        ensures { result ≡ record { buffered = line commands.Comment; last = None } }
    {
        let mut text = [0; 192];
        let start = print_command(&CifCommand::Comment, &mut text, 192);
        Text {
            buffer: Buffer::with(&text[start..]),
            last: None,
        }
    }

    /// Writes a symbol with its number, its name, if it has one, and its shapes.
    pub(crate) fn symbol<K: Sink>(
        &mut self,
        out: &mut K,
        number: u64,
        name: Option<&Name>,
        shapes: &[Shape],
    ) -> Result<(), Failed>
        requires { AllByRecursion IsShapeInReach shapes.now }
        ensures wrote { Writes result (text_of (symbol_commands number (record { name = option_map (λ n. n.now) name.entry; shapes = shapes.now }))) self.old.buffered self.new.buffered (K.written out.old) (K.written out.new) (K.faults out.old) (K.faults out.new) (K.same_place out.old out.new) (K.else_same out.old out.new) }
        ensures layer { self.new.last ≡ None }
    {
        self.last = None;
        put_symbol(&mut self.buffer, out, number, name, shapes)
    }

    /// Writes a copy of the symbol of a number at a place, behind its own name, if it has one. The layer stays.
    pub(crate) fn cell<K: Sink>(
        &mut self,
        out: &mut K,
        name: Option<&Name>,
        number: u64,
        place: &Place,
    ) -> Result<(), Failed>
        ensures wrote { Writes result (text_of (copy_commands (option_map (λ n. n.now) name.entry) number place.now)) self.old.buffered self.new.buffered (K.written out.old) (K.written out.new) (K.faults out.old) (K.faults out.new) (K.same_place out.old out.new) (K.else_same out.old out.new) }
        ensures layer { self.new.last ≡ self.old.last }
    {
        put_copy(&mut self.buffer, out, name, number, place)
    }

    /// Writes a shape at the main level, behind the line of its layer where another was written last.
    pub(crate) fn shape<K: Sink>(&mut self, out: &mut K, shape: &Shape) -> Result<(), Failed>
        requires { IsShapeInReach shape.now }
        ensures wrote { Writes result (text_of (shape_commands self.old.last shape.now)) self.old.buffered self.new.buffered (K.written out.old) (K.written out.new) (K.faults out.old) (K.faults out.new) (K.same_place out.old out.new) (K.else_same out.old out.new) }
        ensures layer { self.new.last ≡ Some shape.now.layer }
    {
        let last = self.last;
        self.last = Some(shape.layer);
        put_shape(&mut self.buffer, out, last, shape)
    }

    /// Writes a label with this name at the main level, in the middle of a shape, behind the line of the shape's layer where another was written last.
    pub(crate) fn label<K: Sink>(
        &mut self,
        out: &mut K,
        name: &Name,
        shape: &Shape,
    ) -> Result<(), Failed>
        requires { IsExtentInTwiceReach shape.now.rect }
        ensures wrote { Writes result (text_of (label_commands self.old.last name.now shape.now)) self.old.buffered self.new.buffered (K.written out.old) (K.written out.new) (K.faults out.old) (K.faults out.new) (K.same_place out.old out.new) (K.else_same out.old out.new) }
        ensures layer { self.new.last ≡ Some shape.now.layer }
    {
        let last = self.last;
        self.last = Some(shape.layer);
        put_label(&mut self.buffer, out, last, name, shape)
    }

    /// Writes the line `E` and puts all that is buffered.
    pub(crate) fn end<K: Sink>(&mut self, out: &mut K) -> Result<(), Failed>
        ensures { Puts result (self.old.buffered ++ line commands.End) (K.written out.old) (K.written out.new) (K.faults out.old) (K.faults out.new) (K.same_place out.old out.new) (K.else_same out.old out.new) }
    {
        put_command(&mut self.buffer, out, &CifCommand::End)?;
        self.buffer.flush(out)
    }
}
