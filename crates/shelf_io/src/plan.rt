//! The failures that an object in memory is told to make, and how much one of its puts takes.

ghost use Rattle.std.specs.Prelude.{◌≡◌, ◌<◌, ◌≤◌, ◌+◌, ◌++◌, ◌-◌, ◌^◌, [], ◌∷◌, OnOk, OnErr, IfOk, length, min, take};
ghost use Rattle.shelf_io.specs.Count.{raised};

use std::alloc::{AllocError, Global};

/// Which calls of an object fail, and how much one put takes.
#[derive(Drop)]
pub(crate) struct Plan {
    marks: Vec<u64>,
    calls: u64,
    most: usize,
    ghost takes_some: { 0 < most },
}

impl Plan {
    ghost use Rattle.shelf_io.specs.Plan.{is_marked, called};

    /// No call fails, and a put takes any piece whole.
    pub(crate) fn new(alloc: Global) -> Plan
        ensures marks { result.marks.items ≡ [] }
        ensures calls { result.calls ≡ 0 }
        ensures most { result.most ≡ 2 ^ 64 - 1 }
    {
        Plan {
            marks: Vec::new(alloc),
            calls: 0,
            most: usize::MAX,
        }
    }

    /// Marks a call by its number, called from 0.
    pub(crate) fn mark(&mut self, call: u64) -> Result<(), AllocError>
        ensures marked { OnOk result (self.new.marks.items ≡ self.old.marks.items ++ call ∷ []) }
        ensures refused { OnErr result (self.new.marks.items ≡ self.old.marks.items) }
        ensures calls { self.new.calls ≡ self.old.calls }
        ensures most { self.new.most ≡ self.old.most }
    {
        self.marks.push(call)?;
        Ok(())
    }

    /// Sets the most bytes that one put takes.
    pub(crate) fn set_most(&mut self, n: usize)
        requires { 0 < n }
        ensures marks { self.new.marks ≡ self.old.marks }
        ensures calls { self.new.calls ≡ self.old.calls }
        ensures most { self.new.most ≡ n }
    {
        self.most = n;
    }

    /// Counts a call, and says whether it is marked.
    pub(crate) fn fails(&mut self) -> bool
        ensures marked { result ≡ is_marked self.old }
        ensures called { self.new ≡ called self.old }
    {
        let marked = self.marks.contains(&self.calls);
        self.calls = self.calls.saturating_add(1);
        marked
    }

    /// The front of the piece that one put takes.
    pub(crate) fn front<'a>(&self, piece: &'a [u8]) -> &'a [u8]
        ensures front { result.now ≡ take self.now.most piece.now }
        ensures some { 0 < length piece.now → 0 < length result.now }
    {
        let _some = self.most;
        &piece[..piece.len().min(self.most)]
    }
}

/// A count that rises by one, or stays at its last value.
pub(crate) fn raise(count: u64) -> u64
    ensures { result ≡ raised count }
{
    count.saturating_add(1)
}
