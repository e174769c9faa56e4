//! The lengths of runs of blocks, which are powers of two.

ghost use Rattle.std.specs.Prelude.{◌≡◌, ◌*◌, ◌-◌, ◌<◌, ◌≤◌, ◌^◌, min};

// How many blocks a run has: a power of two.
#[derive(Clone, Copy)]
pub(crate) struct Span {
    pub(crate) blocks: usize,
    ghost some: { 0 < blocks },
}

impl Span {
    // A single block.
    pub(crate) fn one() -> Span {
        Span { blocks: 1 }
    }

    pub(crate) fn doubled(self) -> Span
        ensures { result.blocks ≡ min (2 * self.blocks) (2 ^ 64 - 1) }
    {
        Span {
            blocks: self.blocks.saturating_mul(2),
        }
    }

    // The greatest of this span, its double, the double of that .. of which block b is a multiple, but at least this one and not
    // past the first that has `count` blocks or more.
    pub(crate) fn widest(self, b: usize, count: usize) -> Span
        ensures { self.blocks ≤ result.blocks }
    {
        let mut widest = self;
        while widest.blocks < count && b % widest.doubled().blocks == 0 {
            widest = widest.doubled();
        }
        widest
    }
}
