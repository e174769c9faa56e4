//! What has a wiring.

use crate::wiring::Wiring;

/// What has a wiring: a wiring itself, and what is kept with one.
pub trait HasWiring {
    ghost use Rattle.std.specs.Prelude.{◌≡◌};
    ghost use Rattle.channel_model.specs.declared.wiring.Wiring.{Wiring};

    // The wiring that it has.
    ghost wiring_of: { Self → Wiring };

    /// Its wiring. Takes no memory.
    fn wiring(&self) -> &Wiring
        ensures { result.now ≡ wiring_of self.now };
}

impl HasWiring for Wiring {
    ghost wiring_of = { λ wiring. wiring };

    fn wiring(&self) -> &Wiring {
        self
    }
}
