//! A shelf and a sink that never fail.

ghost use Rattle.std.specs.Prelude.{◌≡◌, ◌≢◌, ◌<◌, ◌≤◌, List, ℕ, length, take, Option, Some, None, Ok, IfOk, OnOk, OnErr};
ghost use Rattle.shelf_io.specs.Told.{Gives, Refines};
ghost use Rattle.shelf_io.specs.NeverShelf.{held, taken_count};

use crate::files::{NamedFiles, copy_from, forget, replace};
use crate::traits::{Failed, Shelf, Sink};
use std::alloc::{AllocError, Global};
use std::collections::BTreeMap;

/// A shelf whose names hold what they are set to, and which drops what is put to it. No call of the
/// trait takes memory or fails.
///
/// It leaves untold a name that was never set, and one that was begun or put to since; a take of
/// such a name gives 0.
#[derive(Drop)]
pub struct NeverShelf {
    alloc: Global,
    files: NamedFiles,
}

impl NeverShelf {
    /// Every name is untold.
    pub fn new(alloc: Global) -> Result<NeverShelf, AllocError>
        ensures { IfOk result (λ shelf. (name : List ℕ) → held shelf name ≡ None) }
    {
        Ok(NeverShelf {
            alloc,
            files: BTreeMap::new(alloc),
        })
    }

    /// Makes the name hold the bytes. Where there is no memory for them all stays as it was.
    pub fn set(&mut self, name: &str, bytes: &[u8]) -> Result<(), AllocError>
        ensures holds { OnOk result (held self.new name.now ≡ Some bytes.now) }
        ensures others { (other : List ℕ) → other ≢ name.now
            → held self.new other ≡ held self.old other }
        ensures refused { OnErr result (held self.new ≡ held self.old) }
    {
        replace(self.alloc, &mut self.files, name, bytes)
    }
}

impl Shelf for NeverShelf {
    ghost holds = { held };

    ghost read_faults = { λ shelf name. 0 };

    ghost write_faults = { λ shelf name. 0 };

    fn take(&mut self, name: &str, at: u64, into: &mut [u8]) -> Result<usize, Failed>
        requires { 0 < length into.old }
        ensures fits { IfOk result (λ n. n ≤ length into.old) }
        ensures gives { IfOk result (λ n. (bytes : List ℕ) → held self.old name.now ≡ Some bytes
            → Gives bytes at n into.new) }
        ensures files { held self.new ≡ held self.old }
        ensures answer { result ≡ Ok (taken_count (held self.old name.now) at (length into.old)) }
    {
        match self.files.get(name) {
            Some(file) => Ok(copy_from(file.as_slice(), at, into)),
            None => Ok(0),
        }
    }

    fn begin(&mut self, name: &str) -> Result<(), Failed>
        ensures answer { result ≡ Ok tt }
        ensures untold { held self.new name.now ≡ None }
        ensures others { (other : List ℕ) → other ≢ name.now
            → held self.new other ≡ held self.old other }
    {
        forget(&mut self.files, name);
        Ok(())
    }

    fn put(&mut self, name: &str, piece: &[u8]) -> Result<usize, Failed>
        ensures answer { result ≡ Ok (length piece.now) }
        ensures untold { held self.new name.now ≡ None }
        ensures others { (other : List ℕ) → other ≢ name.now
            → held self.new other ≡ held self.old other }
    {
        forget(&mut self.files, name);
        Ok(piece.len())
    }
}

/// A sink that takes every piece whole, drops it, and tells nothing. It takes no memory.
#[derive(Clone, Copy, Debug, Default, PartialEq, Eq)]
pub struct NeverSink;

impl NeverSink {
    /// The sink, which has no state.
    pub fn new() -> NeverSink {
        NeverSink
    }
}

impl Sink for NeverSink {
    ghost written = { λ sink. None };

    ghost faults = { λ sink. 0 };

    ghost same_place = { λ old new. Unit {0} };

    ghost else_same = { λ old new calm. Unit {0} };

    fn put(&mut self, piece: &[u8]) -> Result<usize, Failed>
        ensures answer { result ≡ Ok (length piece.now) }
    {
        Ok(piece.len())
    }

    ghost place_here = { λ x. tt };

    ghost place_then = { λ x y z one two. tt };

    ghost same_here = { λ x. tt };

    ghost same_then = { λ x y z calm one two. tt };
}
