//! Lists one behind another in one piece of memory, with a table of where each of them lies.

ghost use Rattle.list_facts.specs.Lists.{list_there};
ghost use Rattle.row_board.specs.FlatLists.{first_lists};
ghost use Rattle.std.specs.Prelude.{◌≡◌, ◌<◌, ◌++◌, ◌∷◌, [], length, slice_get, IfOk, OnOk};

use list_facts::Lists;
use std::alloc::{AllocError, Global};
use std::marker::Model;

/// The most items of all lists, so that four bytes tell where each of them lies.
const MOST_ITEMS: usize = u32::MAX as usize;

// Where the items of a list begin among those of all, and where they end.
#[derive(Clone, Copy, Debug)]
struct Part {
    from: u32,
    to: u32,
}

/// Lists that lie one behind another in one piece of memory, so that those which are read together are not scattered. Contracts see the list of them.
#[derive(Drop)]
pub(crate) struct FlatLists<T> {
    items: Vec<T>,
    parts: Vec<Part>,
}

impl<T> Model for FlatLists<T> {
    ghost use Rattle.std.specs.Prelude.{List};

    ghost Value = { List (List T) };

    ghost use Rattle.row_board.specs.FlatLists.{AreParts, part_in};
    ghost use Rattle.std.specs.Prelude.{length, map};

    ghost view = { λ a. map (part_in a.items.items) a.parts.items };

    ghost invariant = { λ a. AreParts a.parts.items (length a.items.items) };
}

impl<T: Copy> FlatLists<T> {
    /// So many of these lists, from the first on. The one error is want of memory, which is also answered where they have more than 2^32 - 1 items.
    pub(crate) fn of(
        alloc: Global,
        lists: &Lists<T>,
        count: usize,
    ) -> Result<FlatLists<T>, AllocError>
        ensures { IfOk result (λ made. made ≡ first_lists lists.now count) }
    {
        let mut made = FlatLists {
            items: Vec::new(alloc),
            parts: Vec::new(alloc),
        };
        for n in 0..count {
            made.push(lists.at(n))?;
        }
        Ok(made)
    }

    // Puts a list behind the others.
    fn push(&mut self, list: &[T]) -> Result<(), AllocError>
        ensures { OnOk result (self.new ≡ self.old ++ list.now ∷ []) }
    {
        let from = self.items.len();
        if list.len() > MOST_ITEMS - from {
            return Err(AllocError);
        }
        self.parts.reserve(1)?;
        self.items.extend_from_slice(list)?;
        self.parts.push_reserved(Part {
            from: from as u32,
            to: self.items.len() as u32,
        });
        Ok(())
    }

    /// The items of a list that is there. Takes no memory.
    pub(crate) fn known(&self, n: usize) -> &[T]
        requires { n < length self.now }
        ensures { result.now ≡ list_there (slice_get self.now n) }
    {
        let part = self.parts[n];
        &self.items[part.from as usize..part.to as usize]
    }

    /// The items of a list, none where there is no such list. Takes no memory.
    pub(crate) fn at(&self, n: usize) -> &[T]
        ensures { result.now ≡ list_there (slice_get self.now n) }
    {
        match self.parts.get(n) {
            Some(part) => &self.items[part.from as usize..part.to as usize],
            None => &[],
        }
    }
}
