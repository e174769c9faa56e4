//! The changes of a seed: what random words ask for.

ghost use Rattle.anneal_int.specs.Changes.{IsAmong, chance_number, change_number, change_of};
ghost use Rattle.anneal_int.specs.Words.{after_words};
ghost use Rattle.std.specs.Prelude.{◌≡◌, ◌+◌, ◌*◌, ◌<◌};

use limits::MOST_CHANGES;
use rand_core::utils::NextWord;
use rand_pcg::Lcg64Xsh32;

/// A change of a row placement: an instance is mirrored, or two change places, which may be the same.
#[derive(Clone, Copy, Debug, PartialEq, Eq)]
pub enum Change {
    Mirror(u32),
    Swap(u32, u32),
}

/// A change and the random word by which it is judged.
#[derive(Clone, Copy, Debug, PartialEq, Eq)]
pub struct Proposal {
    pub change: Change,
    pub chance: u32,
}

/// The changes of a seed, one after another.
#[derive(Drop)]
pub struct Draws {
    pub seed: u64,
    /// The number of the next change, from 0 on.
    pub number: u64,
    rng: Lcg64Xsh32,
    ghost in_step: { rng ≡ after_words seed (3 * number) },
}

impl Draws {
    /// The changes of this seed, from the first one on.
    #[tactic(auto, unfolding(crate::specs::Words::after_words))]
    pub fn new(seed: u64) -> Draws
        ensures seed { result.seed ≡ seed }
        ensures number { result.number ≡ 0 }
    {
        Draws {
            seed,
            number: 0,
            rng: Lcg64Xsh32::new(seed, 54),
        }
    }

    /// The next change of so many instances.
    #[tactic(auto, using(crate::proofs::WordLaws::words), unfolding(crate::specs::Words::word, crate::specs::Changes::change_number))]
    pub fn next(&mut self, instances: u32) -> Proposal
        requires some { 0 < instances }
        requires few { self.old.number < MOST_CHANGES }
        ensures change { result.change ≡ change_number self.old.seed instances self.old.number }
        ensures among { IsAmong instances result.change }
        ensures chance { result.chance ≡ chance_number self.old.seed self.old.number }
        ensures number { self.new.number ≡ self.old.number + 1 }
        ensures seed { self.new.seed ≡ self.old.seed }
    {
        let first = self.rng.next_word();
        let second = self.rng.next_word();
        let chance = self.rng.next_word();
        self.number += 1;
        Proposal {
            change: change_of(instances, first, second),
            chance,
        }
    }
}

// The change that two words ask for.
#[tactic(auto, unfolding(crate::specs::Changes::change_of))]
fn change_of(instances: u32, first: u32, second: u32) -> Change
    requires { 0 < instances }
    ensures is { result ≡ change_of instances first second }
    ensures among { IsAmong instances result }
{
    let cell = first % instances;
    if second % 8 == 0 {
        Change::Mirror(cell)
    } else {
        Change::Swap(cell, second / 8 % instances)
    }
}
