//! Different names in the order of their first mention, fewer than 2^32, and the place of each.

use indexmap::IndexSet;
use list_facts::place_of;
use std::marker::Model;

/// Fewer than 2^32 different names, which contracts see as the list of them, in the order of their first mention.
#[derive(Drop)]
pub(crate) struct Names<'a> {
    pub(crate) names: IndexSet<&'a [u8]>,
}

impl<'a> Model for Names<'a> {
    ghost use Rattle.list_facts.specs.Texts.{texts};
    ghost use Rattle.std.specs.Prelude.{◌<◌, ◌^◌, ℕ, List, length};

    ghost Value = { List (List ℕ) };

    ghost view = { λ a. texts a.names.keys };

    ghost invariant = { λ a. length (texts a.names.keys) < 2 ^ 32 };
}

impl<'a> Names<'a> {
    ghost use Rattle.list_facts.specs.Names.{place_among};
    ghost use Rattle.std.specs.Prelude.{◌≡◌};

    /// The place of a name among these, or their number where it is not among them. Takes no memory.
    pub(crate) fn place(&self, name: &[u8]) -> u32
        ensures { result ≡ place_among self.now name.now }
    {
        place_of(&self.names, name) as u32
    }
}
