//! How a reading ends early: a flaw at a place of the text, or want of memory.

ghost use Rattle.read_base.specs.declared.stop.Stop.TheVariants as stops;
ghost use Rattle.std.specs.Prelude.{◌≡◌};

use std::alloc::{AllocError, AllocFailed};

/// What is wrong with a text: the kind, and how many bytes of the text are left from its place on.
#[derive(Clone, Copy, Debug)]
pub struct Flaw<K> {
    pub kind: K,
    pub left: usize,
}

/// Why a reading ended early: the text is at fault, or memory ran out.
#[derive(Debug, Drop)]
pub enum Stop<K> {
    At(Flaw<K>),
    Memory,
}

impl<K> From<Flaw<K>> for Stop<K> {
    ghost from_gives = { λ flaw stop. stop ≡ stops.At flaw };

    fn from(flaw: Flaw<K>) -> Stop<K> {
        Stop::At(flaw)
    }
}

impl<K> From<AllocError> for Stop<K> {
    ghost from_gives = { λ _ stop. stop ≡ stops.Memory };

    fn from(_: AllocError) -> Stop<K> {
        Stop::Memory
    }
}

impl<T: Drop, K> From<AllocFailed<T>> for Stop<K> {
    ghost from_gives = { λ _ stop. stop ≡ stops.Memory };

    fn from(_: AllocFailed<T>) -> Stop<K> {
        Stop::Memory
    }
}
