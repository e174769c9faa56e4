//! How far the annealing of several tries has come.

ghost use Rattle.std.specs.Prelude.{◌≡◌};

use progress::{Step, Watch};

/// What watches one of several tries: of the stages of the one it tells as of those of all.
#[derive(Drop)]
pub(crate) struct TryWatch<'w, W: Watch> {
    watch: &'w mut W,
    before: u64,
    tries: u64,
}

impl<'w, W: Watch> TryWatch<'w, W> {
    /// That of the try of this number, of so many.
    pub(crate) fn new(watch: &'w mut W, number: u32, tries: u32) -> TryWatch<'w, W>
        ensures place { result.watch.ghost_name ≡ watch.entry.ghost_name }
        ensures now { result.watch.now ≡ watch.old }
    {
        TryWatch {
            watch,
            before: u64::from(number),
            tries: u64::from(tries),
        }
    }
}

impl<'w, W: Watch> Watch for TryWatch<'w, W> {
    ghost use Rattle.command_jobs.specs.Handed.{IsHanded};
    ghost use Rattle.std.proofs.Common.{◌∙◌, refl};

    ghost goes = { λ old new. IsHanded (new.watch.ghost_name ≡ old.watch.ghost_name) (W.goes old.watch.now new.watch.now) };

    fn told(&mut self, step: Step, done: u64, all: u64) {
        let before = self.before.saturating_mul(all);
        let every = self.tries.saturating_mul(all);
        self.watch.told(step, before.saturating_add(done), every);
    }

    ghost goes_here = { λ x. record { place = refl; goes = W.goes_here x.watch.now } };

    ghost goes_then = { λ x y z one two. record { place = two.place ∙ one.place; goes = W.goes_then x.watch.now y.watch.now z.watch.now one.goes two.goes } };
}
