//! What stops a command, and the status with which it ends.

ghost use Rattle.command_ends.specs.Status.{stop_status};
ghost use Rattle.std.specs.Prelude.{◌≡◌};

use crate::refusal::Refusal;

/// What stopped a command.
#[derive(Debug, Drop)]
pub enum Stop {
    /// The words or the contents of a file were refused, or memory ran out.
    Refused(Refusal),
    /// A file could not be read.
    ReadFault,
    /// The text could not be written whole.
    WriteFault,
}

impl From<Refusal> for Stop {
    ghost use Rattle.command_ends.specs.declared.stop.Stop.TheVariants.{Refused};

    ghost from_gives = { λ refusal stop. stop ≡ Refused refusal };

    fn from(refusal: Refusal) -> Self {
        Stop::Refused(refusal)
    }
}

impl Stop {
    /// The number with which the program ends. Takes no memory.
    pub fn status(&self) -> u8
        ensures { result ≡ stop_status self.now }
    {
        match self {
            Stop::Refused(refusal) => refusal.status(),
            Stop::ReadFault => 8,
            Stop::WriteFault => 9,
        }
    }
}
