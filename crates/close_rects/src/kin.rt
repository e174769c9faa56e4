//! The one class of all members of a block, and of a run of blocks, where they have one.

ghost use Rattle.std.specs.Prelude.{◌≡◌, Some, IfSome};

// The one class of all items of a block, and the one of all items of this block and all further ones up to before block
// `next`; none where they are mixed.
#[derive(Clone, Copy)]
pub(crate) struct Kin {
    pub(crate) own: Option<u32>,
    pub(crate) all: Option<u32>,
    pub(crate) next: usize,
}

// The class that both name.
pub(crate) fn common(first: Option<u32>, second: Option<u32>) -> Option<u32>
    ensures first { IfSome result (λ class. first ≡ Some class) }
    ensures second { IfSome result (λ class. second ≡ Some class) }
{
    if first == second { first } else { None }
}
