//! The table of thresholds, by which rises of the cost are judged.

ghost use Rattle.anneal_int.specs.Judging.{is_taken};
ghost use Rattle.anneal_int.specs.Threshold.{AreAbove, threshold};
ghost use Rattle.std.specs.Prelude.{◌≡◌, ◌+◌, ◌*◌, ◌/◌, ◌<◌, ◌≤◌, ◌%◌, ℕ, nat_le};

use crate::temperature::Temperature;

const FIRST: u16 = 65535;

const COUNT: u32 = 64;

/// Threshold `i` of 64: the first is 65,535, and each is 113 of 128 parts of the one before, rounded down. Takes no memory.
#[tactic(auto, using(crate::proofs::JudgingLaws::thresholds))]
pub fn threshold(i: u32) -> u16
    requires { i ≤ 63 }
    ensures { result ≡ threshold i }
{
    let mut last = FIRST;
    for _i in 0..i {
        last = next_threshold(last);
    }
    last
}

fn next_threshold(last: u16) -> u16
    ensures { result ≡ last * 113 / 128 }
{
    (u32::from(last) * 113 / 128) as u16
}

// How many thresholds are above a number: they fall, so these are the first ones.
#[tactic(auto, using(crate::proofs::JudgingLaws::thresholds))]
fn above(number: u16) -> u32
    ensures { AreAbove result number }
{
    let mut last = FIRST;
    let mut count = 0;
    while count < COUNT && number < last {
        last = next_threshold(last);
        count += 1;
    }
    count
}

/// The greatest rise of the cost that is taken at this temperature with this random word; a change without a rise is taken with each. Takes no memory.
#[tactic(auto, using(crate::proofs::JudgingLaws::taken_within))]
pub(crate) fn greatest_rise(temperature: Temperature, word: u32) -> u64
    ensures { (old new : ℕ) → is_taken temperature word old new ≡ nat_le new (old + result) }
{
    let count = above((word % 65536) as u16);
    (u64::from(count) * temperature.degrees()).saturating_sub(1) / 8
}
