//! Steps of a job, and what watches them.

ghost use Rattle.std.specs.Prelude.{◌≡◌};

/// A step of the job of laying a design out, which goes by stages of annealing, by channels that are routed, or by shapes of channels that are written.
#[derive(Clone, Copy, Debug, PartialEq, Eq)]
pub enum Step {
    Annealing,
    Routing,
    Writing,
}

/// What is told how far a job has come. What may become of it by that is its own affair (`goes`); it changes nothing of the job.
pub trait Watch {
    /// The second is what the first may become by being told something, however often.
    ghost goes: { Self → Self → Type 0 };

    /// Is told that so much of a step is done, of so much in all.
    fn told(&mut self, step: Step, done: u64, all: u64)
        ensures { goes self.old self.new };

    /// It may stay as it is.
    ghost goes_here: { (x : Self) → goes x x };

    /// What becomes of what it became may become of it.
    ghost goes_then: { (x y z : Self) → goes x y → goes y z → goes x z };
}

/// Nothing, which is told in vain.
#[derive(Clone, Copy, Debug, Drop, PartialEq, Eq)]
pub struct Unwatched;

impl Watch for Unwatched {
    ghost use Rattle.std.proofs.Common.{◌∙◌, refl};

    ghost goes = { λ old new. new ≡ old };

    fn told(&mut self, _step: Step, _done: u64, _all: u64) {}

    ghost goes_here = { λ x. refl };

    ghost goes_then = { λ x y z one two. two ∙ one };
}
