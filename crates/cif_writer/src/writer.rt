//! A text in CIF that is written to a file as it is made.

ghost use Rattle.cif_text.specs.Printing.{line, text_of};
ghost use Rattle.cif_text.specs.Written.{copy_commands, label_commands, shape_commands, symbol_commands};
ghost use Rattle.cif_text.specs.declared.command.CifCommand.TheVariants as commands;
ghost use Rattle.cif_writer.specs.declared.writer.StartFault.TheVariants as faults;
ghost use Rattle.geom_core.specs.Reach.{IsShapeInReach};
ghost use Rattle.shelf_io.specs.Count.{Rose};
ghost use Rattle.shelf_io.specs.OtherFiles.{OthersSame};
ghost use Rattle.shelf_io.specs.Told.{Emptied, Refines};
ghost use Rattle.shelf_io.specs.Wrote as texts;
ghost use Rattle.std.specs.List.{AllByRecursion};
ghost use Rattle.std.specs.Prelude.{◌≡◌, ◌++◌, [], None, Some, option_map, true, false, is_ok, IfOk, OnOk, OnErr};
ghost use Rattle.std.specs.Result.{IsErrOf};

use crate::text::Text;
use geom_core::{Name, Place, Shape};
use shelf_io::{Failed, FileSink, Shelf};
use std::alloc::Global;
use std::marker::Model;
use thiserror::Error;

/// Why a text was not begun.
#[derive(Clone, Copy, Debug, PartialEq, Eq, Error)]
pub enum StartFault {
    /// The file could not be begun.
    #[error("the file to write could not be begun")]
    Write,
    /// Memory ran out.
    #[error("out of memory")]
    Memory,
}

/// A text in CIF that is written to a file of a shelf as it is made, in pieces of 4,096 bytes. All calls for one text are given the same shelf and the same file.
/// It holds what is not put yet, fewer than 4,096 bytes, and the layer that was written last at this level. No call but the first takes memory.
///
/// A call that answers Failed, which comes only where the file's write count rose in that call, gives the writer up; the file holds a front of the text then.
#[derive(Debug, Drop)]
pub struct Writer {
    text: Box<Text>,
}

impl Model for Writer {
    ghost use Rattle.cif_writer.specs.Begun.{Begun};

    ghost Value = { Begun };

    ghost view = { λ writer. writer.text.value };
}

impl Writer {
    /// Begins a file, and its text with the line `(cellroute 1);`, which is buffered. It errs with Memory before the file is begun, and then the shelf is as
    /// before; or with Write, which comes only where the file's write count rose, and then the file holds what it held before, or nothing.
    pub fn start<S: Shelf>(alloc: Global, shelf: &mut S, file: &str) -> Result<Writer, StartFault>
        ensures begun { IfOk result (λ writer. writer ≡ record { buffered = line commands.Comment; last = None }) }
        ensures emptied { OnOk result (Refines (S.holds shelf.new file.now) (Some [])) }
        ensures failed { OnErr result (Emptied (S.holds shelf.old file.now) (S.holds shelf.new file.now)) }
        ensures memory { IsErrOf result faults.Memory → shelf.new ≡ shelf.old }
        ensures others { OthersSame (is_ok result) file.now (S.holds shelf.old) (S.holds shelf.new) (S.read_faults shelf.old) (S.read_faults shelf.new) (S.write_faults shelf.old) (S.write_faults shelf.new) }
        ensures cause { IsErrOf result faults.Write → Rose (S.write_faults shelf.old file.now) (S.write_faults shelf.new file.now) }
    {
        let Ok(text) = Box::new(alloc, Text::begin()) else {
            return Err(StartFault::Memory);
        };
        match shelf.begin(file) {
            Ok(()) => Ok(Writer { text }),
            Err(_) => Err(StartFault::Write),
        }
    }

    /// Writes a symbol: its number, its name, if it has one, and its shapes, which begin without a layer. No layer is written then. Symbols are numbered from 1 on in
    /// their order where the text is to be read back.
    pub fn symbol<S: Shelf>(
        mut self,
        shelf: &mut S,
        file: &str,
        number: u64,
        name: Option<&Name>,
        shapes: &[Shape],
    ) -> Result<Writer, Failed>
        requires { AllByRecursion IsShapeInReach shapes.now }
        ensures wrote { IfOk result (λ writer. texts.Wrote (text_of (symbol_commands number (record { name = option_map (λ n. n.now) name.entry; shapes = shapes.now }))) self.buffered writer.buffered (S.holds shelf.old file.now) (S.holds shelf.new file.now) (S.write_faults shelf.old file.now) (S.write_faults shelf.new file.now) (OthersSame true file.now (S.holds shelf.old) (S.holds shelf.new) (S.read_faults shelf.old) (S.read_faults shelf.new) (S.write_faults shelf.old) (S.write_faults shelf.new))) }
        ensures layer { IfOk result (λ writer. writer.last ≡ None) }
        ensures stopped { OnErr result (texts.Failed (self.buffered ++ (text_of (symbol_commands number (record { name = option_map (λ n. n.now) name.entry; shapes = shapes.now })))) (S.holds shelf.old file.now) (S.holds shelf.new file.now) (S.write_faults shelf.old file.now) (S.write_faults shelf.new file.now) (OthersSame false file.now (S.holds shelf.old) (S.holds shelf.new) (S.read_faults shelf.old) (S.read_faults shelf.new) (S.write_faults shelf.old) (S.write_faults shelf.new))) }
    {
        let mut out = FileSink::new(shelf, file);
        self.text.symbol(&mut out, number, name, shapes)?;
        Ok(self)
    }

    /// Writes a copy of the symbol of a number at a place, behind its own name, if it has one. The layer stays.
    pub fn cell<S: Shelf>(
        mut self,
        shelf: &mut S,
        file: &str,
        name: Option<&Name>,
        number: u64,
        place: &Place,
    ) -> Result<Writer, Failed>
        ensures wrote { IfOk result (λ writer. texts.Wrote (text_of (copy_commands (option_map (λ n. n.now) name.entry) number place.now)) self.buffered writer.buffered (S.holds shelf.old file.now) (S.holds shelf.new file.now) (S.write_faults shelf.old file.now) (S.write_faults shelf.new file.now) (OthersSame true file.now (S.holds shelf.old) (S.holds shelf.new) (S.read_faults shelf.old) (S.read_faults shelf.new) (S.write_faults shelf.old) (S.write_faults shelf.new))) }
        ensures layer { IfOk result (λ writer. writer.last ≡ self.last) }
        ensures stopped { OnErr result (texts.Failed (self.buffered ++ (text_of (copy_commands (option_map (λ n. n.now) name.entry) number place.now))) (S.holds shelf.old file.now) (S.holds shelf.new file.now) (S.write_faults shelf.old file.now) (S.write_faults shelf.new file.now) (OthersSame false file.now (S.holds shelf.old) (S.holds shelf.new) (S.read_faults shelf.old) (S.read_faults shelf.new) (S.write_faults shelf.old) (S.write_faults shelf.new))) }
    {
        let mut out = FileSink::new(shelf, file);
        self.text.cell(&mut out, name, number, place)?;
        Ok(self)
    }

    /// Writes a label with this name at the main level, in the middle of a shape, behind the line of the shape's layer where another was written last.
    pub fn label<S: Shelf>(
        mut self,
        shelf: &mut S,
        file: &str,
        name: &Name,
        shape: &Shape,
    ) -> Result<Writer, Failed>
        requires { IsShapeInReach shape.now }
        ensures wrote { IfOk result (λ writer. texts.Wrote (text_of (label_commands self.last name.now shape.now)) self.buffered writer.buffered (S.holds shelf.old file.now) (S.holds shelf.new file.now) (S.write_faults shelf.old file.now) (S.write_faults shelf.new file.now) (OthersSame true file.now (S.holds shelf.old) (S.holds shelf.new) (S.read_faults shelf.old) (S.read_faults shelf.new) (S.write_faults shelf.old) (S.write_faults shelf.new))) }
        ensures layer { IfOk result (λ writer. writer.last ≡ Some shape.now.layer) }
        ensures stopped { OnErr result (texts.Failed (self.buffered ++ (text_of (label_commands self.last name.now shape.now))) (S.holds shelf.old file.now) (S.holds shelf.new file.now) (S.write_faults shelf.old file.now) (S.write_faults shelf.new file.now) (OthersSame false file.now (S.holds shelf.old) (S.holds shelf.new) (S.read_faults shelf.old) (S.read_faults shelf.new) (S.write_faults shelf.old) (S.write_faults shelf.new))) }
    {
        let mut out = FileSink::new(shelf, file);
        self.text.label(&mut out, name, shape)?;
        Ok(self)
    }

    /// Writes a shape at the main level, behind the line of its layer where another was written last.
    pub fn shape<S: Shelf>(
        mut self,
        shelf: &mut S,
        file: &str,
        shape: &Shape,
    ) -> Result<Writer, Failed>
        requires { IsShapeInReach shape.now }
        ensures wrote { IfOk result (λ writer. texts.Wrote (text_of (shape_commands self.last shape.now)) self.buffered writer.buffered (S.holds shelf.old file.now) (S.holds shelf.new file.now) (S.write_faults shelf.old file.now) (S.write_faults shelf.new file.now) (OthersSame true file.now (S.holds shelf.old) (S.holds shelf.new) (S.read_faults shelf.old) (S.read_faults shelf.new) (S.write_faults shelf.old) (S.write_faults shelf.new))) }
        ensures layer { IfOk result (λ writer. writer.last ≡ Some shape.now.layer) }
        ensures stopped { OnErr result (texts.Failed (self.buffered ++ (text_of (shape_commands self.last shape.now))) (S.holds shelf.old file.now) (S.holds shelf.new file.now) (S.write_faults shelf.old file.now) (S.write_faults shelf.new file.now) (OthersSame false file.now (S.holds shelf.old) (S.holds shelf.new) (S.read_faults shelf.old) (S.read_faults shelf.new) (S.write_faults shelf.old) (S.write_faults shelf.new))) }
    {
        let mut out = FileSink::new(shelf, file);
        self.text.shape(&mut out, shape)?;
        Ok(self)
    }

    /// Writes the line `E` and puts all that is buffered.
    pub fn close<S: Shelf>(mut self, shelf: &mut S, file: &str) -> Result<(), Failed>
        ensures { texts.Puts result (self.buffered ++ line commands.End) (S.holds shelf.old file.now) (S.holds shelf.new file.now) (S.write_faults shelf.old file.now) (S.write_faults shelf.new file.now) (Unit {0}) (λ calm. OthersSame calm file.now (S.holds shelf.old) (S.holds shelf.new) (S.read_faults shelf.old) (S.read_faults shelf.new) (S.write_faults shelf.old) (S.write_faults shelf.new)) }
    {
        let mut out = FileSink::new(shelf, file);
        self.text.end(&mut out)
    }
}
