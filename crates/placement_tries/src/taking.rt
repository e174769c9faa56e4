//! The seeds of tries, and which of two estimates is less.

ghost use Rattle.placement_tries.specs.Taking.{is_less, seed_at};
ghost use Rattle.std.specs.Prelude.{◌≡◌};

/// The seed of the try of this number, from 0 on: so much above the first, modulo 2^64. Takes no memory.
pub fn seed_at(seed: u64, number: u32) -> u64
    ensures { result ≡ seed_at seed number }
{
    seed.wrapping_add(u64::from(number))
}

/// Whether an estimate is less than another. One that there is, is less than none. Takes no memory.
pub fn is_less(one: Option<u128>, other: Option<u128>) -> bool
    ensures { result ≡ is_less one other }
{
    match (one, other) {
        (Some(a), Some(b)) => a < b,
        (Some(_), None) => true,
        (None, _) => false,
    }
}
