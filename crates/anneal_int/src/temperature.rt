//! The temperature of a stage and that of the next one, which is nine tenths of it, and at least 1.

use crate::schedule::Schedule;
use std::marker::Model;

/// A temperature from 1 to 1,000,000,000, which every value keeps. Contracts see the number.
#[derive(Clone, Copy, Debug)]
pub(crate) struct Temperature {
    degrees: u64,
}

impl Model for Temperature {
    ghost use Rattle.limits.specs.declared.TheConstants.{MOST_TEMPERATURE};
    ghost use Rattle.std.specs.Prelude.{ℕ, ◌<◌, ◌≤◌};

    ghost Value = { ℕ };

    ghost view = { λ t. t.degrees };

    ghost invariant = { λ t. (0 < t.degrees) × (t.degrees ≤ MOST_TEMPERATURE) };

    ghost inverse = { λ n. record { degrees = n } };
}

impl Temperature {
    ghost use Rattle.anneal_int.specs.Cooling.{cooler};
    ghost use Rattle.limits.specs.declared.TheConstants.{MOST_TEMPERATURE};
    ghost use Rattle.std.specs.Prelude.{◌≡◌, ◌<◌, ◌≤◌};

    /// The temperature of the first stage of a schedule.
    pub(crate) fn first(schedule: &Schedule) -> Temperature
        ensures { result ≡ schedule.now.temperature }
    {
        Temperature {
            degrees: schedule.temperature,
        }
    }

    /// The temperature of the stage behind one of this temperature.
    pub(crate) fn cooler(self) -> Temperature
        ensures { result ≡ cooler self }
    {
        Temperature {
            degrees: (self.degrees * 9 / 10).max(1),
        }
    }

    /// The number, from 1 to 1,000,000,000.
    pub(crate) fn degrees(self) -> u64
        ensures is { result ≡ self }
        ensures some { 0 < result }
        ensures few { result ≤ MOST_TEMPERATURE }
    {
        self.degrees
    }
}
