//! The length below which gaps count as close, from 0 to 10^16 half centimicrons.

ghost use Rattle.std.specs.Prelude.{◌≤ℤ◌, pos};

// How near is close: below a length from 0 to 10^16 half centimicrons.
#[derive(Clone, Copy)]
pub(crate) struct CloseLength {
    pub(crate) length: i64,
    ghost low: { pos 0 ≤ℤ length },
    ghost high: { length ≤ℤ pos 10000000000000000 },
}
