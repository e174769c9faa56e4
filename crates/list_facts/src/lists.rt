//! Lists by numbers from 0 on, each of which grows at its end.

ghost use Rattle.list_facts.specs.Lists.{list_there, with_item};
ghost use Rattle.std.specs.Option.{option_map};
ghost use Rattle.std.specs.Prelude.{◌≡◌, ◌==◌, ◌<◌, [], ℕ, List, Some, slice_get, IfOk, OnOk};

use std::alloc::{AllocError, Global};
use std::marker::Model;

// One of the lists.
#[derive(Debug, Drop)]
struct Row<T> {
    items: Vec<T>,
}

impl<T> Model for Row<T> {
    ghost use Rattle.std.specs.Prelude.{List};

    ghost Value = { List T };

    ghost view = { λ a. a.items.items };
}

/// Lists by their numbers, from 0 on. Contracts see the list of them.
#[derive(Debug, Drop)]
pub struct Lists<T> {
    lists: Vec<Row<T>>,
}

impl<T> Model for Lists<T> {
    ghost use Rattle.std.specs.Prelude.{List};

    ghost Value = { List (List T) };

    ghost view = { λ a. a.lists.items };
}

impl<T: Drop> Lists<T> {
    /// So many empty lists. The one error is want of memory.
    pub fn new(alloc: Global, count: usize) -> Result<Lists<T>, AllocError>
        ensures { IfOk result (λ made. (k : ℕ) → k < count → slice_get made k ≡ Some []) }
    {
        let mut lists = Vec::new(alloc);
        for n in 0..count {
            lists.push(Row {
                items: Vec::new(alloc),
            })?;
        }
        Ok(Lists { lists })
    }

    /// Puts an item behind those of a list, if there is this list. The one error is want of memory.
    pub fn push(&mut self, at: usize, item: T) -> Result<(), AllocError>
        ensures { OnOk result ((k : ℕ) → slice_get self.new k ≡ option_map (with_item (at == k) item) (slice_get self.old k)) }
    {
        if at < self.lists.len() {
            let list = &mut self.lists[at];
            list.items.push(item)?;
        }
        Ok(())
    }

    /// The items of a list, none where there is no such list. Takes no memory.
    pub fn at(&self, n: usize) -> &[T]
        ensures { result.now ≡ list_there (slice_get self.now n) }
    {
        match self.lists.get(n) {
            Some(list) => list.items.as_slice(),
            None => &[],
        }
    }
}
