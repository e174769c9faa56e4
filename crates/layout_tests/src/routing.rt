//! The wirings of channels by the plain router.

ghost use Rattle.channel_model.specs.Pins.{Pins};
ghost use Rattle.channel_model.specs.Wired.{Wired};
ghost use Rattle.plain_router.specs.Plain.{plain_of};
ghost use Rattle.std.specs.Prelude.{◌≡◌, ℕ, map, Some, IfOk, slice_get};

use channel_model::{Channel, Wiring};
use plain_router::plain;
use std::alloc::{AllocError, Global};

/// The wirings of all channels, in their order, by the plain router: each connects its channel. The one error is want of memory.
pub(crate) fn route_channels(alloc: Global, channels: &[Channel]) -> Result<Vec<Wiring>, AllocError>
    ensures stated { IfOk result (λ wirings. wirings.items ≡ map plain_of channels.now) }
    ensures wired { IfOk result (λ _. (k : ℕ) (pins : Pins) → slice_get channels.now k ≡ Some pins → Wired pins (plain_of pins)) }
{
    let mut wirings = Vec::new(alloc);
    for channel in channels {
        wirings.push(plain(alloc, channel)?)?;
    }
    Ok(wirings)
}
