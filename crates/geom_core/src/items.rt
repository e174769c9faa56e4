//! A list that owns its items and lends them for reading or writing.

ghost use Rattle.std.specs.Borrow.{sem};
ghost use Rattle.std.specs.Prelude.{◌≡◌};
ghost use Rattle.geom_core.specs.Lending.{LendsItems};

use std::marker::Model;

/// A list of values, which contracts see as the list itself.
#[derive(Debug, Drop)]
pub struct Items<T> {
    items: Vec<T>,
}

impl<T> Model for Items<T> {
    ghost use Rattle.std.specs.Prelude.{List};

    ghost Value = { List T };

    ghost view = { λ a. a.items.items };
}

impl<T> Items<T> {
    /// The list of these items, in their order. Takes no memory.
    pub fn new(items: Vec<T>) -> Items<T>
        ensures { result ≡ items.items }
    {
        Items { items }
    }

    /// Lends the items, in order. Takes no memory.
    pub fn items(&self) -> &[T]
        ensures { result.now ≡ self.now }
    {
        self.items.as_slice()
    }

    /// Lends the items for writing. The list is then what the slice holds last. Takes no memory.
    pub fn items_mut(&mut self) -> &mut [T]
        ensures* writes_back { sem 𝓛 (LendsItems T.row self.entry result) }
        ensures value { result.now ≡ self.old }
    {
        self.items.as_mut_slice()
    }
}
