//! Commands taken one after another, in an order that the caller chooses.

ghost use Rattle.cif_reader.specs.Levels.{is_drawing};
ghost use Rattle.cif_text.specs.Sound.{IsInPlace, IsSound};

use crate::drawing_command::DrawingCommand;
use crate::expanding::{fault_at, layout_of};
use crate::fault::ExpandFault;
use crate::found::Found;
use crate::outside::draw;
use crate::refusal::ExpandStop;
use crate::scales::Scale;
use crate::standing::{Standing, at_first, step};
use cif_text::CifCommand;
use geom_core::{Layout, Name, Shape};
use std::alloc::{AllocError, Global};
use std::marker::Model;

/// What stands behind the commands that were taken so far: the main level, the symbols that are defined, and the definition that is open. Contracts see the progress that
/// `expansion` makes.
#[derive(Debug, Drop)]
pub struct Expander {
    standing: Standing,
}

impl Model for Expander {
    ghost use Rattle.cif_reader.specs.Expansion.{Progress};

    ghost Value = { Progress };

    ghost use Rattle.cif_reader.specs.ExpandersView.{progress_in, IsKept};

    ghost view = { progress_in };

    ghost invariant = { IsKept };
}

impl Expander {
    ghost use Rattle.cif_reader.specs.Expanders.{at_scale, called_shapes, with_waiting};
    ghost use Rattle.cif_reader.specs.Expanding.{told_of};
    ghost use Rattle.cif_reader.specs.Expansion.{advance, at_first, refused_at};
    ghost use Rattle.cif_text.specs.CifReads.{is_open_behind};
    ghost use Rattle.cif_text.specs.Meaning.{layout_of};
    ghost use Rattle.cif_text.specs.Printable.{IsPart};
    ghost use Rattle.cif_text.specs.Symbols.{symbol_of};
    ghost use Rattle.read_base.specs.Answers.{AnswersAs};
    ghost use Rattle.std.specs.Prelude.{◌≡◌, true, is_some, IfOk};

    /// What stands before the first command.
    pub fn new(alloc: Global) -> Expander
        ensures { result ≡ at_first }
    {
        Expander {
            standing: at_first(alloc),
        }
    }

    /// Whether the definition of the symbol of this number has ended.
    #[tactic(auto, unfolding(crate::specs::Behind::seen))]
    pub fn is_defined(&self, n: u64) -> bool
        ensures { result ≡ is_some (symbol_of n self.now.state.symbols) }
    {
        Found::by_number(&self.standing.table, n).is_some()
    }

    /// The numbers of the main level count as `a / b` centimicrons each from here on.
    #[tactic(auto, using(crate::proofs::ExpanderLaws::waits, crate::proofs::ExpanderLaws::scaled))]
    pub fn at_scale(self, a: u64, b: u64) -> Expander
        requires a { IsPart a }
        requires b { IsPart b }
        ensures { result ≡ at_scale a b self }
    {
        let Expander { mut standing } = self;
        standing.main.pen.scale = Scale { a, b };
        Expander { standing }
    }

    /// This name waits for the next command of the main level, or none.
    #[tactic(auto, using(crate::proofs::ExpanderLaws::waits, crate::proofs::ExpanderLaws::scaled))]
    pub fn with_waiting(self, name: Option<Name>) -> Expander
        ensures { result ≡ with_waiting name self }
    {
        let Expander { mut standing } = self;
        standing.main.waiting = name;
        Expander { standing }
    }

    /// The shapes that a call would give the main level, where it is not refused. The one error is want of memory.
    pub fn called_shapes(
        &self,
        alloc: Global,
        command: &CifCommand,
    ) -> Result<Vec<Shape>, AllocError>
        requires sound { IsSound command.now }
        requires drawing { is_drawing command.now ≡ true }
        ensures { IfOk result (λ shapes. shapes.items ≡ called_shapes self.now.state command.now) }
    {
        let mut shapes = Vec::new(alloc);
        let CifCommand::Call { .. } = command else {
            return Ok(shapes);
        };
        let main = &self.standing.main;
        let before = main.shapes.len();
        let command = DrawingCommand { command };
        let given = match main.pen.given(alloc, &self.standing.table, before, command) {
            Ok(given) => given,
            Err(ExpandStop::Because(_)) => return Ok(shapes),
            Err(ExpandStop::Memory) => return Err(AllocError),
        };
        draw(alloc, &mut shapes, &given)?;
        Ok(shapes)
    }

    /// What stands behind the command of this number more. Bad comes exactly where it is refused, with the first reason that applies to it.
    pub fn take(self, alloc: Global, command: &CifCommand, at: u32) -> Result<Expander, ExpandFault>
        requires { IsInPlace (is_some self.state.inside) command.now }
        ensures takes { AnswersAs (λ e. e) told_of result (refused_at at (advance self command.now)) }
        ensures inside { IfOk result (λ e. is_some e.state.inside ≡ is_open_behind (is_some self.state.inside) command.now) }
    {
        let Expander { mut standing } = self;
        match step(alloc, &mut standing, command) {
            Ok(()) => Ok(Expander { standing }),
            Err(refusal) => Err(fault_at(refusal, at)),
        }
    }

    /// The layout of the main level, as it is drawn so far.
    #[tactic(auto, unfolding(crate::specs::Behind::seen))]
    pub fn end(self) -> Layout
        ensures { result ≡ layout_of self.state.main }
    {
        layout_of(self.standing)
    }
}
