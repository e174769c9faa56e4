//! A shelf in memory, which tells what it holds and fails where it is told to.

ghost use Rattle.std.specs.Prelude.{◌≡◌, ◌≢◌, ◌<◌, ◌≤◌, ◌+◌, ◌++◌, ◌∷◌, ◌-◌, ◌^◌, List, ℕ, [], length, take, min, Option, Some, None, IsErr, false, IfOk, OnOk, OnErr, IsTrue};
ghost use Rattle.std.specs.Option.{option_copied};
ghost use Rattle.shelf_io.specs.Count.{Rose, raised};
ghost use Rattle.shelf_io.specs.Told.{Gives, Refines, Emptied, appended};
ghost use Rattle.shelf_io.specs.Plan.{is_marked, called};
ghost use Rattle.shelf_io.specs.MemShelf.{held, failed_takes, failed_writes, plan_of, SameFaults, taken};

use crate::files::{NamedFiles, append, copy_from, empty, replace};
use crate::plan::{Plan, raise};
use crate::traits::{Failed, Shelf};
use std::alloc::{AllocError, Global};
use std::collections::BTreeMap;

/// NamedFiles in memory.
///
/// A call fails where it is marked, where it takes from or puts to a name that is lacking, and
/// where a file can't grow for want of memory, which an empty piece never takes. It keeps one number of failed takes and one of
/// failed calls of `begin` and `put`; each stands for every name.
#[derive(Drop)]
pub struct MemShelf {
    alloc: Global,
    files: NamedFiles,
    plan: Plan,
    reads: u64,
    writes: u64,
}

impl MemShelf {
    /// No name holds anything, no call is marked, and a put takes any piece whole.
    pub fn new(alloc: Global) -> Result<MemShelf, AllocError>
        ensures lacking { IfOk result (λ shelf. (name : List ℕ) → held shelf name ≡ None) }
        ensures takes { IfOk result (λ shelf. failed_takes shelf ≡ 0) }
        ensures writes { IfOk result (λ shelf. failed_writes shelf ≡ 0) }
        ensures marks { IfOk result (λ shelf. (plan_of shelf).marks.items ≡ []) }
        ensures calls { IfOk result (λ shelf. (plan_of shelf).calls ≡ 0) }
        ensures most { IfOk result (λ shelf. (plan_of shelf).most ≡ 2 ^ 64 - 1) }
    {
        Ok(MemShelf {
            alloc,
            files: BTreeMap::new(alloc),
            plan: Plan::new(alloc),
            reads: 0,
            writes: 0,
        })
    }

    /// Makes the name hold the bytes. Where there is no memory for them all stays as it was.
    pub fn set(&mut self, name: &str, bytes: &[u8]) -> Result<(), AllocError>
        ensures holds { OnOk result (held self.new name.now ≡ Some bytes.now) }
        ensures others { (other : List ℕ) → other ≢ name.now
            → held self.new other ≡ held self.old other }
        ensures refused { OnErr result (held self.new ≡ held self.old) }
        ensures faults { SameFaults self.old self.new }
    {
        replace(self.alloc, &mut self.files, name, bytes)
    }

    /// The bytes of the name; `None` exactly where it is lacking.
    pub fn get(&self, name: &str) -> Option<&[u8]>
        ensures { option_copied result ≡ held self.now name.now }
    {
        match self.files.get(name) {
            Some(file) => Some(file.as_slice()),
            None => None,
        }
    }

    /// Marks a call to fail. The calls of the trait are called from 0, all kinds together; several
    /// may be marked. Where there is no memory for the mark all stays as it was.
    pub fn fail_at(&mut self, call: u64) -> Result<(), AllocError>
        ensures marked { OnOk result ((plan_of self.new).marks.items
            ≡ (plan_of self.old).marks.items ++ call ∷ []) }
        ensures refused { OnErr result ((plan_of self.new).marks.items
            ≡ (plan_of self.old).marks.items) }
        ensures calls { (plan_of self.new).calls ≡ (plan_of self.old).calls }
        ensures most { (plan_of self.new).most ≡ (plan_of self.old).most }
        ensures holds { held self.new ≡ held self.old }
        ensures takes { failed_takes self.new ≡ failed_takes self.old }
        ensures writes { failed_writes self.new ≡ failed_writes self.old }
    {
        self.plan.mark(call)
    }

    /// Sets the most bytes that one put takes.
    pub fn most(&mut self, n: usize)
        requires { 0 < n }
        ensures most { (plan_of self.new).most ≡ n }
        ensures marks { (plan_of self.new).marks ≡ (plan_of self.old).marks }
        ensures calls { (plan_of self.new).calls ≡ (plan_of self.old).calls }
        ensures holds { held self.new ≡ held self.old }
        ensures takes { failed_takes self.new ≡ failed_takes self.old }
        ensures writes { failed_writes self.new ≡ failed_writes self.old }
    {
        self.plan.set_most(n);
    }

    /// Puts the front of the piece that one put takes, and gives its length.
    fn grow(&mut self, name: &str, piece: &[u8]) -> Result<usize, Failed>
        ensures takes { IfOk result (λ n. n ≡ min (length piece.now) (plan_of self.old).most) }
        ensures some { IfOk result (λ n. 0 < length piece.now → 0 < n) }
        ensures appended { IfOk result (λ n. held self.new name.now
            ≡ appended (held self.old name.now) (take n piece.now)) }
        ensures lacking { OnOk result (held self.old name.now ≢ None) }
        ensures empty { length piece.now ≡ 0 → OnErr result (held self.old name.now ≡ None) }
        ensures failed { OnErr result (held self.new name.now ≡ held self.old name.now) }
        ensures others { (other : List ℕ) → other ≢ name.now
            → held self.new other ≡ held self.old other }
        ensures faults { SameFaults self.old self.new }
    {
        let front = self.plan.front(piece);
        append(&mut self.files, name, front)?;
        Ok(front.len())
    }
}

impl Shelf for MemShelf {
    ghost holds = { held };

    ghost read_faults = { λ shelf name. failed_takes shelf };

    ghost write_faults = { λ shelf name. failed_writes shelf };

    fn take(&mut self, name: &str, at: u64, into: &mut [u8]) -> Result<usize, Failed>
        requires { 0 < length into.old }
        ensures fits { IfOk result (λ n. n ≤ length into.old) }
        ensures gives { IfOk result (λ n. (bytes : List ℕ) → held self.old name.now ≡ Some bytes
            → Gives bytes at n into.new) }
        ensures files { held self.new ≡ held self.old }
        ensures writes { failed_writes self.new ≡ failed_writes self.old }
        ensures quiet { OnOk result (failed_takes self.new ≡ failed_takes self.old) }
        ensures later { failed_takes self.old ≤ failed_takes self.new }
        ensures raised { OnErr result (failed_takes self.new ≡ raised (failed_takes self.old)) }
        ensures answer { result ≡ taken (is_marked (plan_of self.old)) (held self.old name.now) at
            (length into.old) }
        ensures called { plan_of self.new ≡ called (plan_of self.old) }
    {
        let marked = self.plan.fails();
        match self.files.get(name) {
            Some(file) if !marked => Ok(copy_from(file.as_slice(), at, into)),
            _ => {
                self.reads = raise(self.reads);
                Err(Failed)
            }
        }
    }

    fn begin(&mut self, name: &str) -> Result<(), Failed>
        ensures emptied { OnOk result (held self.new name.now ≡ Some []) }
        ensures same { OnErr result (held self.new ≡ held self.old) }
        ensures failed { OnErr result (Emptied (held self.old name.now) (held self.new name.now)) }
        ensures others { (other : List ℕ) → other ≢ name.now
            → held self.new other ≡ held self.old other }
        ensures reads { failed_takes self.new ≡ failed_takes self.old }
        ensures quiet { OnOk result (failed_writes self.new ≡ failed_writes self.old) }
        ensures later { failed_writes self.old ≤ failed_writes self.new }
        ensures raised { OnErr result (failed_writes self.new ≡ raised (failed_writes self.old)) }
        ensures marked { IsTrue (is_marked (plan_of self.old)) → IsErr result }
        ensures lacking { OnErr result (is_marked (plan_of self.old) ≡ false
            → held self.old name.now ≡ None) }
        ensures called { plan_of self.new ≡ called (plan_of self.old) }
    {
        if self.plan.fails() {
            self.writes = raise(self.writes);
            return Err(Failed);
        }
        match empty(self.alloc, &mut self.files, name) {
            Ok(()) => Ok(()),
            Err(_) => {
                self.writes = raise(self.writes);
                Err(Failed)
            }
        }
    }

    fn put(&mut self, name: &str, piece: &[u8]) -> Result<usize, Failed>
        ensures takes { IfOk result (λ n. n ≡ min (length piece.now) (plan_of self.old).most) }
        ensures some { IfOk result (λ n. 0 < length piece.now → 0 < n) }
        ensures appended { IfOk result (λ n. held self.new name.now
            ≡ appended (held self.old name.now) (take n piece.now)) }
        ensures failed { OnErr result (held self.new name.now ≡ held self.old name.now) }
        ensures others { (other : List ℕ) → other ≢ name.now
            → held self.new other ≡ held self.old other }
        ensures reads { failed_takes self.new ≡ failed_takes self.old }
        ensures quiet { OnOk result (failed_writes self.new ≡ failed_writes self.old) }
        ensures later { failed_writes self.old ≤ failed_writes self.new }
        ensures raised { OnErr result (failed_writes self.new ≡ raised (failed_writes self.old)) }
        ensures marked { IsTrue (is_marked (plan_of self.old)) → IsErr result }
        ensures lacking { held self.old name.now ≡ None → IsErr result }
        ensures empty { length piece.now ≡ 0 → is_marked (plan_of self.old) ≡ false
            → OnErr result (held self.old name.now ≡ None) }
        ensures called { plan_of self.new ≡ called (plan_of self.old) }
    {
        if self.plan.fails() {
            self.writes = raise(self.writes);
            return Err(Failed);
        }
        match self.grow(name, piece) {
            Ok(n) => Ok(n),
            Err(_) => {
                self.writes = raise(self.writes);
                Err(Failed)
            }
        }
    }
}
