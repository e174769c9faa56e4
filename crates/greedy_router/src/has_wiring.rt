//! A routed channel has a wiring.

use crate::sweep::Routed;
use channel_model::{HasWiring, Wiring};

impl HasWiring for Routed {
    ghost wiring_of = { λ routed. routed.wiring };

    fn wiring(&self) -> &Wiring {
        &self.wiring
    }
}
