//! The random words of a seed.

ghost use Rattle.layout_report.specs.Words.{after_words, word};
ghost use Rattle.std.specs.Prelude.{◌≡◌, ◌+◌, ◌<◌, ◌^◌};

use rand_core::utils::NextWord;
use rand_pcg::Lcg64Xsh32;

/// The random words of a seed, one after another.
#[derive(Drop)]
pub(crate) struct Words {
    pub(crate) seed: u64,
    /// The number of the next word, from 0 on.
    pub(crate) number: u64,
    rng: Lcg64Xsh32,
    ghost in_step: { rng ≡ after_words seed number },
}

impl Words {
    /// The words of this seed, from the first one on.
    #[tactic(auto, unfolding(crate::specs::Words::after_words))]
    pub(crate) fn new(seed: u64) -> Words
        ensures seed { result.seed ≡ seed }
        ensures number { result.number ≡ 0 }
    {
        Words {
            seed,
            number: 0,
            rng: Lcg64Xsh32::new(seed, 55),
        }
    }

    /// The next word.
    #[tactic(auto, using(crate::proofs::WordLaws::after_words_more), unfolding(crate::specs::Words::word))]
    pub(crate) fn next(&mut self) -> u32
        requires few { self.old.number < 2 ^ 32 }
        ensures word { result ≡ word self.old.seed self.old.number }
        ensures number { self.new.number ≡ self.old.number + 1 }
        ensures seed { self.new.seed ≡ self.old.seed }
    {
        let word = self.rng.next_word();
        self.number += 1;
        word
    }
}
