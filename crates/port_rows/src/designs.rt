//! The design that is drawn, and the one that is placed.

ghost use Rattle.port_rows.specs.Designs.{bare_designs, placed_in};
ghost use Rattle.std.specs.Prelude.{◌≡◌};

use crate::ported::Ported;
use design_model::Design;

/// The design that is drawn, and the one that is placed: where ports are wanted, the latter has none.
#[derive(Debug, Drop)]
pub struct Designs {
    /// The design that is drawn.
    pub drawn: Ported,
    /// The one that is placed, where it is another.
    pub bare: Option<Design>,
}

impl Designs {
    /// One design without ports, which is both placed and drawn. Takes no memory.
    pub fn bare(design: Design) -> Self
        ensures { result ≡ bare_designs design }
    {
        let drawn = Ported {
            design,
            south: 0,
            north: 0,
        };
        Designs { drawn, bare: None }
    }

    /// The design that is placed. Takes no memory.
    pub fn placed(&self) -> &Design
        ensures { result.now ≡ placed_in self.now }
    {
        match &self.bare {
            Some(design) => design,
            None => &self.drawn.design,
        }
    }
}
