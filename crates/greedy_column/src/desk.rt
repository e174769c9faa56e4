//! What the columns of a sweep use one after another, so that it is made once.

use crate::marks::{mark_split, unmark};
use crate::pairs::{Pairs, neighbours_by};
use crate::span::Span;
use crate::tracks::Tracks;
use choose_core::Candidate;
use std::alloc::{AllocError, Global};
use std::marker::Model;
use std::mem;

/// What the columns of a sweep use one after another. It tells nothing: a table of lines by net, in which each column counts from where the
/// one before it ended, so that no entry need be set back; a table of marks by net, which each column leaves without marks; and a list with
/// room for offers.
#[derive(Debug, Drop)]
pub struct Desk {
    above: Vec<u32>,
    base: u32,
    marks: Vec<u32>,
    offers: Vec<Candidate>,
}

impl Model for Desk {
    ghost use Rattle.greedy_column.specs.Desk.{IsBelow, IsBlank};

    ghost Value = { Unit {0} };

    ghost view = { λ desk. tt };

    ghost invariant = { λ desk. IsBelow desk.base desk.above.items × IsBlank desk.marks.items };
}

impl Desk {
    ghost use Rattle.greedy_column.specs.Desk.{MarksSplit, MarksWithin};
    ghost use Rattle.greedy_column.specs.Joining.{neighbours};
    ghost use Rattle.std.specs.Prelude.{◌≡◌, IfOk};

    /// A desk for the first column. Takes no memory.
    pub fn new(alloc: Global) -> Desk {
        Desk {
            above: Vec::new(alloc),
            base: 0,
            marks: Vec::new(alloc),
            offers: Vec::new(alloc),
        }
    }

    // Hands out a list with room for offers, which is to be given back.
    pub(crate) fn take_offers(&mut self, alloc: Global) -> Vec<Candidate> {
        mem::replace(&mut self.offers, Vec::new(alloc))
    }

    // Takes such a list back.
    pub(crate) fn give_offers(&mut self, offers: Vec<Candidate>) {
        self.offers = offers;
    }

    // All two neighbouring tracks of a net, by ascending lower track.
    pub(crate) fn neighbours(&mut self, alloc: Global, tracks: &Tracks) -> Result<Pairs, AllocError>
        ensures { IfOk result (λ pairs. pairs ≡ neighbours tracks.now) }
    {
        // Where the numbers run out, they begin anew with an empty table.
        if self.base > u32::MAX - tracks.count() {
            self.above = Vec::new(alloc);
            self.base = 0;
        }
        let found = neighbours_by(alloc, tracks, &mut self.above, self.base);
        self.base += tracks.count();
        found
    }

    // A table in which the nets of more than one group are marked, and which is to be given back.
    pub(crate) fn marks(
        &mut self,
        alloc: Global,
        pairs: &Pairs,
        spans: &[Span],
    ) -> Result<Vec<u32>, AllocError>
        ensures { IfOk result (λ marks. MarksSplit spans.now pairs.now marks.items) }
    {
        let mut marks = mem::replace(&mut self.marks, Vec::new(alloc));
        mark_split(&mut marks, pairs.list(), spans)?;
        Ok(marks)
    }

    // Takes such a table back.
    pub(crate) fn take_back(&mut self, mut marks: Vec<u32>, pairs: &Pairs)
        requires { MarksWithin pairs.now marks.items }
    {
        unmark(&mut marks, pairs.list());
        self.marks = marks;
    }
}
