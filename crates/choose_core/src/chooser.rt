//! A named choice that is stored, and the trait of all that chooses among candidates.

ghost use Rattle.choose_core.specs.Answers.{IsAsked, MayAnswer};
ghost use Rattle.std.specs.Prelude.{◌≡◌, ◌<◌, ℕ, length};

use crate::candidate::Candidate;
use geom_core::Name;

/// A choice as it is stored: it answers with a place in the list that it is shown, from 0 on.
pub type Choice = Box<dyn Fn(&[Candidate]) -> usize>;

/// A named choice, beside the fact that it may be asked of every list of candidates that is not empty and has fewer than 2^32
/// members, and then answers within the list.
#[derive(Drop)]
pub struct Chooser {
    name: Name,
    choice: Choice,
    ghost callable: { (list : _) → IsAsked list.now → Choice.pre choice list },
    ghost within: { (list : _) (answer : ℕ) → IsAsked list.now → Choice.post choice list answer → answer < length list.now },
}

/// What chooses among candidates. A function that asks is generic over it, so that its clauses can name the answers.
pub trait Chooses {
    ghost use Rattle.std.specs.Prelude.{◌<◌, List, ℕ, length};
    ghost use Rattle.choose_core.specs.declared.candidate.Candidate.{Candidate};
    ghost use Rattle.choose_core.specs.Answers.{IsAsked};

    // The answers that may be given to a list.
    ghost answers: { Self → List Candidate → ℕ → Type 0 };

    /// An answer to a list: the place of a candidate in it, from 0 on. Takes no memory.
    fn choose(&self, list: &[Candidate]) -> usize
        requires { IsAsked list.now }
        ensures answer { answers self.now list.now result }
        ensures within { result < length list.now };
}

impl Chooses for Chooser {
    ghost answers = { λ chooser list answer. MayAnswer Choice.post chooser.choice list answer };

    fn choose(&self, list: &[Candidate]) -> usize {
        (self.choice)(list)
    }
}

impl Chooser {
    /// The chooser of this name that chooses so. Takes no memory.
    pub fn new(name: Name, choice: Choice) -> Chooser
        requires callable { (list : _) → IsAsked list.now → Choice.pre choice list }
        requires within { (list : _) (answer : ℕ) → IsAsked list.now → Choice.post choice list answer → answer < length list.now }
        ensures name { result.name ≡ name }
        ensures choice { result.choice ≡ choice }
    {
        Chooser { name, choice }
    }

    /// The chooser's name. Takes no memory.
    pub fn name(&self) -> &Name
        ensures { result.now ≡ self.now.name }
    {
        &self.name
    }

    /// An answer of the stored choice to a list: the place of a candidate in it, from 0 on. Takes no memory.
    pub fn pick(&self, list: &[Candidate]) -> usize
        requires { IsAsked list.now }
        ensures answer { ⟦<Chooser as Chooses>⟧.answers self.now list.now result }
        ensures within { result < length list.now }
    {
        self.choose(list)
    }
}
