//! Lists one behind another in one piece of memory, with a table of where each of them ends.

ghost use Rattle.greedy_router.specs.Packed.{AreEnds, begin_of, lists_in};
ghost use Rattle.std.specs.Prelude.{◌≡◌, ◌<◌, ◌≤◌, ◌++◌, ◌∷◌, [], Some, OnErr, OnOk, length, slice_get, slice_range};

use std::alloc::{AllocError, Global};
use std::marker::Model;

/// The most items of all lists, so that four bytes tell where each list ends.
const MOST_ITEMS: usize = u32::MAX as usize;

/// Lists that lie one behind another in one piece of memory, so that each takes little more room than its items. Contracts see the list
/// of them.
#[derive(Debug, Drop)]
pub(crate) struct PackedLists<T> {
    items: Vec<T>,
    // Where each list ends.
    ends: Vec<u32>,
}

impl<T> Model for PackedLists<T> {
    ghost use Rattle.std.specs.Prelude.{List};

    ghost Value = { List (List T) };

    ghost use Rattle.greedy_router.specs.Packed.{IsPacked, lists_in};
    ghost use Rattle.std.specs.Prelude.{length};

    ghost view = { λ a. lists_in 0 a.ends.items a.items.items };

    ghost invariant = { λ a. IsPacked a.ends.items (length a.items.items) };
}

// Where a list begins.
fn begin_of(ends: &[u32], number: usize) -> usize
    requires { number ≤ length ends.now }
    ensures { result ≡ begin_of 0 ends.now number }
{
    match number {
        0 => 0,
        _ => ends[number - 1] as usize,
    }
}

// The items from a place on up to another one.
fn part<T>(items: &[T], from: usize, to: usize) -> &[T]
    requires order { from ≤ to }
    requires within { to ≤ length items.now }
    ensures { result.now ≡ slice_range items.now from to }
{
    &items[from..to]
}

// A list by its number.
fn list_at<'a, T>(items: &'a [T], ends: &[u32], number: usize) -> &'a [T]
    requires ends { AreEnds 0 ends.now (length items.now) }
    requires there { number < length ends.now }
    ensures { slice_get (lists_in 0 ends.now items.now) number ≡ Some result.now }
{
    part(items, begin_of(ends, number), ends[number] as usize)
}

impl<T: Copy> PackedLists<T> {
    /// No lists. Takes no memory.
    pub(crate) fn new(alloc: Global) -> PackedLists<T>
        ensures { result ≡ [] }
    {
        PackedLists {
            items: Vec::new(alloc),
            ends: Vec::new(alloc),
        }
    }

    /// Puts a list behind the others. The one error is want of memory, which is also answered where all lists would have more than 2^32 - 1
    /// items; nothing has changed then.
    pub(crate) fn push(&mut self, list: &[T]) -> Result<(), AllocError>
        ensures pushed { OnOk result (self.new ≡ self.old ++ list.now ∷ []) }
        ensures err { OnErr result (self.new ≡ self.old) }
    {
        if list.len() > MOST_ITEMS - self.items.len() {
            return Err(AllocError);
        }
        self.ends.reserve(1)?;
        self.items.extend_from_slice(list)?;
        self.ends.push_reserved(self.items.len() as u32);
        Ok(())
    }

    /// A list by its number, from 0 on. Takes no memory.
    pub(crate) fn at(&self, number: usize) -> &[T]
        requires { number < length self.now }
        ensures { slice_get self.now number ≡ Some result.now }
    {
        list_at(self.items.as_slice(), self.ends.as_slice(), number)
    }

    /// Gives back the room that no list takes.
    pub(crate) fn shrink_to_fit(&mut self)
        ensures { self.new ≡ self.old }
    {
        self.items.shrink_to_fit();
        self.ends.shrink_to_fit();
    }
}
