//! The records of a sweep's columns in little room.

ghost use Rattle.greedy_router.specs.Columns.{AreAlike, columns_in, entered_of};
ghost use Rattle.std.specs.Prelude.{◌≡◌, ◌++◌, ◌∷◌, ◌==◌, [], None, Some, IfNone, IfOk, IfSome, OnOk, length, slice_get};

use crate::packed::PackedLists;
use greedy_column::{Column, Made};
use std::alloc::{AllocError, Global};
use std::marker::Model;

// The tracks that the pins of a column enter, as in `Column`.
#[derive(Clone, Copy, Debug, PartialEq, Eq)]
pub(crate) struct Entered {
    top: u32,
    bottom: u32,
    straight: bool,
}

// What columns have, with the lists of one kind together.
#[derive(Debug, Drop)]
pub(crate) struct Parts {
    entered: Vec<Entered>,
    made: PackedLists<Made>,
    joins: PackedLists<(u32, u32)>,
    ended: PackedLists<u32>,
    moves: PackedLists<(u32, u32)>,
}

impl Parts {
    // No columns.
    fn new(alloc: Global) -> Parts
        ensures entered { result.entered.items ≡ [] }
        ensures made { result.made ≡ [] }
        ensures joins { result.joins ≡ [] }
        ensures ended { result.ended ≡ [] }
        ensures moves { result.moves ≡ [] }
    {
        Parts {
            entered: Vec::new(alloc),
            made: PackedLists::new(alloc),
            joins: PackedLists::new(alloc),
            ended: PackedLists::new(alloc),
            moves: PackedLists::new(alloc),
        }
    }

    // Adds a column.
    fn push(&mut self, column: &Column) -> Result<(), AllocError>
        ensures entered { OnOk result (self.new.entered.items ≡ self.old.entered.items ++ entered_of column.now ∷ []) }
        ensures made { OnOk result (self.new.made ≡ self.old.made ++ column.now.made ∷ []) }
        ensures joins { OnOk result (self.new.joins ≡ self.old.joins ++ column.now.joins ∷ []) }
        ensures ended { OnOk result (self.new.ended ≡ self.old.ended ++ column.now.ended ∷ []) }
        ensures moves { OnOk result (self.new.moves ≡ self.old.moves ++ column.now.moves ∷ []) }
    {
        self.entered.push(entered_of(column))?;
        self.made.push(column.made.items())?;
        self.joins.push(column.joins.items())?;
        self.ended.push(column.ended.items())?;
        self.moves.push(column.moves.items())
    }

    // Gives back the room that no column takes.
    fn shrink_to_fit(&mut self)
        ensures entered { self.new.entered.items ≡ self.old.entered.items }
        ensures made { self.new.made ≡ self.old.made }
        ensures joins { self.new.joins ≡ self.old.joins }
        ensures ended { self.new.ended ≡ self.old.ended }
        ensures moves { self.new.moves ≡ self.old.moves }
    {
        self.entered.shrink_to_fit();
        self.made.shrink_to_fit();
        self.joins.shrink_to_fit();
        self.ended.shrink_to_fit();
        self.moves.shrink_to_fit();
    }
}

// The tracks that the pins of a column enter.
fn entered_of(column: &Column) -> Entered
    ensures { result ≡ entered_of column.now }
{
    Entered {
        top: column.top,
        bottom: column.bottom,
        straight: column.straight,
    }
}

/// The records of the columns of a sweep, from the left, in little room: the lists of all columns lie together. Contracts see the list of
/// the records.
#[derive(Debug, Drop)]
pub struct Columns {
    parts: Parts,
}

/// The record of one column, as it is lent: each field says what that of `Column` says.
#[derive(Clone, Copy, Debug)]
pub struct LentColumn<'a> {
    pub made: &'a [Made],
    pub top: u32,
    pub bottom: u32,
    pub straight: bool,
    pub joins: &'a [(u32, u32)],
    pub ended: &'a [u32],
    pub moves: &'a [(u32, u32)],
}

impl Model for Columns {
    ghost use Rattle.std.specs.Prelude.{List};
    ghost use Rattle.greedy_column.specs.declared.column.Column.{Column as Record};

    ghost Value = { List Record };

    ghost use Rattle.greedy_router.specs.Columns.{AreAlike, columns_in};

    ghost view = { λ a. columns_in a.parts };

    ghost invariant = { λ a. AreAlike a.parts };
}

impl Columns {
    /// No columns. Takes no memory.
    pub fn new(alloc: Global) -> Columns
        ensures { result ≡ [] }
    {
        Columns {
            parts: Parts::new(alloc),
        }
    }

    /// The records of these columns. The one error is want of memory, which is also answered where the lists of one kind have more than
    /// 2^32 - 1 items in all.
    pub fn pack(alloc: Global, columns: &[Column]) -> Result<Columns, AllocError>
        ensures { IfOk result (λ packed. packed ≡ columns.now) }
    {
        let mut parts = Parts::new(alloc);
        let mut rest = columns;
        while let Some((column, later)) = rest.split_first() {
            parts.push(column)?;
            rest = later;
        }
        parts.shrink_to_fit();
        Ok(Columns { parts })
    }

    /// How many columns there are. Takes no memory.
    pub fn len(&self) -> usize
        ensures { result ≡ length self.now }
    {
        self.parts.entered.len()
    }

    /// Whether there is no column. Takes no memory.
    pub fn is_empty(&self) -> bool
        ensures { result ≡ (length self.now == 0) }
    {
        self.parts.entered.is_empty()
    }

    /// The record of a column by its number from 0 on, None from `len` on. Takes no memory.
    pub fn column(&self, number: usize) -> Option<LentColumn<'_>>
        ensures some { IfSome result (λ lent. slice_get self.now number ≡ Some (record {
          made = lent.made.now;
          top = lent.top;
          bottom = lent.bottom;
          straight = lent.straight;
          joins = lent.joins.now;
          ended = lent.ended.now;
          moves = lent.moves.now;
        })) }
        ensures none { IfNone result (slice_get self.now number ≡ None) }
    {
        if number >= self.parts.entered.len() {
            return None;
        }
        let Entered {
            top,
            bottom,
            straight,
        } = self.parts.entered[number];
        Some(LentColumn {
            made: self.parts.made.at(number),
            top,
            bottom,
            straight,
            joins: self.parts.joins.at(number),
            ended: self.parts.ended.at(number),
            moves: self.parts.moves.at(number),
        })
    }
}
