//! A sink in memory, which tells what was put to it and fails where it is told to.

ghost use Rattle.std.specs.Prelude.{◌≡◌, ◌<◌, ◌≤◌, ◌++◌, ◌∷◌, ◌-◌, ◌^◌, List, ℕ, [], length, take, min, Some, IsErr, IsOk, false, IfOk, OnOk, OnErr, IsTrue};
ghost use Rattle.shelf_io.specs.Count.{Rose, raised};
ghost use Rattle.shelf_io.specs.Told.{Refines, appended};
ghost use Rattle.shelf_io.specs.Plan.{is_marked, called};
ghost use Rattle.shelf_io.specs.MemSink.{bytes_put, failed_puts, plan_of};

use crate::plan::{Plan, raise};
use crate::traits::{Failed, Sink};
use std::alloc::{AllocError, Global};

/// A text in memory that grows by what is put to it. A put fails where it is marked, and where the
/// text can't grow for want of memory, which an empty piece never takes.
#[derive(Drop)]
pub struct MemSink {
    text: Vec<u8>,
    plan: Plan,
    failures: u64,
}

impl MemSink {
    /// Nothing was put, no call is marked, and a put takes any piece whole.
    pub fn new(alloc: Global) -> Result<MemSink, AllocError>
        ensures text { IfOk result (λ sink. bytes_put sink ≡ []) }
        ensures failures { IfOk result (λ sink. failed_puts sink ≡ 0) }
        ensures marks { IfOk result (λ sink. (plan_of sink).marks.items ≡ []) }
        ensures calls { IfOk result (λ sink. (plan_of sink).calls ≡ 0) }
        ensures most { IfOk result (λ sink. (plan_of sink).most ≡ 2 ^ 64 - 1) }
    {
        Ok(MemSink {
            text: Vec::new(alloc),
            plan: Plan::new(alloc),
            failures: 0,
        })
    }

    /// Marks a put to fail. The puts are called from 0; several may be marked. Where there is no
    /// memory for the mark all stays as it was.
    pub fn fail_at(&mut self, call: u64) -> Result<(), AllocError>
        ensures marked { OnOk result ((plan_of self.new).marks.items
            ≡ (plan_of self.old).marks.items ++ call ∷ []) }
        ensures refused { OnErr result ((plan_of self.new).marks.items
            ≡ (plan_of self.old).marks.items) }
        ensures calls { (plan_of self.new).calls ≡ (plan_of self.old).calls }
        ensures most { (plan_of self.new).most ≡ (plan_of self.old).most }
        ensures text { bytes_put self.new ≡ bytes_put self.old }
        ensures failures { failed_puts self.new ≡ failed_puts self.old }
    {
        self.plan.mark(call)
    }

    /// Sets the most bytes that one put takes.
    pub fn most(&mut self, n: usize)
        requires { 0 < n }
        ensures most { (plan_of self.new).most ≡ n }
        ensures marks { (plan_of self.new).marks ≡ (plan_of self.old).marks }
        ensures calls { (plan_of self.new).calls ≡ (plan_of self.old).calls }
        ensures text { bytes_put self.new ≡ bytes_put self.old }
        ensures failures { failed_puts self.new ≡ failed_puts self.old }
    {
        self.plan.set_most(n);
    }

    /// All that was put.
    pub fn bytes(&self) -> &[u8]
        ensures { result.now ≡ bytes_put self.now }
    {
        self.text.as_slice()
    }
}

impl Sink for MemSink {
    ghost written = { λ sink. Some (bytes_put sink) };

    ghost faults = { failed_puts };

    ghost same_place = { λ old new. Unit {0} };

    ghost else_same = { λ old new calm. Unit {0} };

    fn put(&mut self, piece: &[u8]) -> Result<usize, Failed>
        ensures takes { IfOk result (λ n. n ≡ min (length piece.now) (plan_of self.old).most) }
        ensures some { IfOk result (λ n. 0 < length piece.now → 0 < n) }
        ensures appended { IfOk result (λ n. bytes_put self.new
            ≡ bytes_put self.old ++ take n piece.now) }
        ensures failed { OnErr result (bytes_put self.new ≡ bytes_put self.old) }
        ensures quiet { OnOk result (failed_puts self.new ≡ failed_puts self.old) }
        ensures later { failed_puts self.old ≤ failed_puts self.new }
        ensures raised { OnErr result (failed_puts self.new ≡ raised (failed_puts self.old)) }
        ensures marked { IsTrue (is_marked (plan_of self.old)) → IsErr result }
        ensures empty { length piece.now ≡ 0 → is_marked (plan_of self.old) ≡ false → IsOk result }
        ensures called { plan_of self.new ≡ called (plan_of self.old) }
    {
        let front = self.plan.front(piece);
        let n = front.len();
        if self.plan.fails() {
            self.failures = raise(self.failures);
            return Err(Failed);
        }
        if front.is_empty() {
            return Ok(n);
        }
        match self.text.extend_from_slice(front) {
            Ok(()) => Ok(n),
            Err(_) => {
                self.failures = raise(self.failures);
                Err(Failed)
            }
        }
    }

    ghost place_here = { λ x. tt };

    ghost place_then = { λ x y z one two. tt };

    ghost same_here = { λ x. tt };

    ghost same_then = { λ x y z calm one two. tt };
}
