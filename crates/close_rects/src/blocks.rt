//! Blocks of eight rectangles, with bounds round what is left of each and round runs of them.

ghost use Rattle.close_rects.specs.Blocks.{Covers, IsIndexed};
ghost use Rattle.geom_core.specs.Rectangles.{Encloses};
ghost use Rattle.std.specs.Prelude.{◌≡◌, ◌+◌, ◌*◌, false, IfOk};

use crate::bounds::Bounds;
use crate::items::{Item, Items};
use std::alloc::{AllocError, Global};

// How many items a block holds.
pub(crate) const BLOCK: usize = 8;

// Bounds round the rectangles of a block that are left, and round those of this block and all further ones up to
// before block `next`.
#[derive(Clone, Copy)]
pub(crate) struct Node {
    pub(crate) own: Bounds,
    pub(crate) all: Bounds,
    pub(crate) next: usize,
}

// A node for each block, that tells of this block alone. The one error is want of memory.
pub(crate) fn single_nodes(alloc: Global, items: &Items) -> Result<Vec<Node>, AllocError>
    ensures { IfOk result (λ v. IsIndexed items.now v.items) }
{
    let count = items.len().div_ceil(BLOCK);
    let mut nodes = Vec::with_capacity(alloc, count)?;
    for b in 0..count {
        let own = own_bounds(items, b);
        nodes.push(Node {
            own,
            all: own,
            next: b + 1,
        })?;
    }
    Ok(nodes)
}

// Bounds round what is left of a block.
pub(crate) fn own_bounds(items: &Items, b: usize) -> Bounds
    ensures { Covers items.now (8 * b) (8 * b + 8) result }
{
    let mut bounds = Bounds::none();
    let start = BLOCK.saturating_mul(b);
    let end = items.len().min(start.saturating_add(BLOCK));
    for at in start..end {
        bounds = with_item(bounds, items.at(at));
    }
    bounds
}

fn with_item(bounds: Bounds, item: Item) -> Bounds
    ensures kept { Encloses result bounds }
    ensures added { item.taken ≡ false → Encloses result item.rect }
{
    if item.taken {
        bounds
    } else {
        bounds.over(&Bounds::of(&item.rect))
    }
}
