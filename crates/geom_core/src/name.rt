//! Names as bytes: lent, copied and compared.

ghost use Rattle.std.proofs.lemmas.Cmp.{nat_list_eq_equiv};
ghost use Rattle.std.specs.Borrow.{sem};
ghost use Rattle.std.specs.Cmp.Lexicographic.{pointwise};
ghost use Rattle.std.specs.Cmp.{partial_equiv_from_equiv};
ghost use Rattle.std.specs.Prelude.{◌≡◌, IfOk, nat_eq};

use std::alloc::{AllocError, Global};
use std::marker::Model;

/// A name: a list of bytes, which contracts see as the list itself.
#[derive(Debug, Drop)]
pub struct Name {
    bytes: Vec<u8>,
}

impl Model for Name {
    ghost use Rattle.std.specs.Prelude.{List, ℕ};

    ghost Value = { List ℕ };

    ghost view = { λ a. a.bytes.items };
}

impl Name {
    ghost use Rattle.geom_core.specs.Written.{overwritten};
    ghost use Rattle.std.specs.Borrow.{Lends, Array, u8 as byte};
    ghost use Rattle.geom_core.specs.contracts.name.Name.{the_row};

    /// The name of these bytes. Takes no memory.
    pub fn new(bytes: Vec<u8>) -> Name
        ensures { result ≡ bytes.items }
    {
        Name { bytes }
    }

    /// Lends the bytes, in order. Takes no memory.
    pub fn items(&self) -> &[u8]
        ensures { result.now ≡ self.now }
    {
        self.bytes.as_slice()
    }

    /// Lends the bytes for writing. The name is then what the slice holds last. Takes no memory.
    pub fn items_mut(&mut self) -> &mut [u8]
        ensures* writes_back { sem 𝓛 (Lends the_row (Array byte 0) self.entry result (overwritten self.entry.now)) }
        ensures value { result.now ≡ self.old }
    {
        self.bytes.as_mut_slice()
    }

    /// A name of the same bytes, in memory of its own. The one error is want of memory.
    pub fn copied(&self, alloc: Global) -> Result<Name, AllocError>
        ensures { IfOk result (λ n. n ≡ self.now) }
    {
        Ok(Name::new(self.items().to_vec(alloc)?))
    }
}

impl PartialEq for Name {
    ghost eq = { pointwise nat_eq };

    ghost laws = { partial_equiv_from_equiv nat_list_eq_equiv };

    fn eq(&self, other: &Name) -> bool {
        self.items() == other.items()
    }
}

impl Eq for Name {
    ghost laws = { nat_list_eq_equiv };
}
