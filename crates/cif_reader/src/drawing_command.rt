//! A command of CIF that draws, names or calls, and neither starts nor finishes a definition.

ghost use Rattle.cif_reader.specs.Levels.{is_drawing};
ghost use Rattle.cif_reader.specs.SoundCommands.{is_sound-prop};
ghost use Rattle.cif_text.specs.Sound.{IsSound};
ghost use Rattle.std.specs.Prelude.{◌≡◌, true};

use cif_text::CifCommand;

/// A command that neither starts nor finishes a definition, with numbers that a text can give.
#[derive(Clone, Copy)]
pub(crate) struct DrawingCommand<'c> {
    pub(crate) command: &'c CifCommand,
    ghost sound: { IsSound command.now } by { is_sound-prop command.now },
    ghost drawing: { is_drawing command.now ≡ true },
}
