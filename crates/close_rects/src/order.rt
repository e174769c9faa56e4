//! Sorts rectangles along x or y, first all, then ever smaller parts, so that near ones get near places.

ghost use Rattle.std.specs.List.Sorted.{IsPermutation};
ghost use Rattle.std.specs.Prelude.{◌<◌};

use crate::items::Item;

// Puts the whole list in order along x or y, then each eighth of it, and so on down to parts of 64, so that items near each
// other get places near each other.
pub(crate) fn order(items: &mut [Item])
    ensures { IsPermutation items.old items.new }
{
    let mut size: usize = 64;
    while size < items.len() {
        size = size.saturating_mul(8);
    }
    while size >= 64 {
        order_parts(items, size);
        size /= 8;
    }
}

// Puts each part of `size` items in order, of which the last may be shorter.
fn order_parts(items: &mut [Item], size: usize)
    requires { 0 < size }
    ensures { IsPermutation items.old items.new }
{
    let mut start: usize = 0;
    while start < items.len() {
        let end = items.len().min(start.saturating_add(size));
        order_part(&mut items[start..end]);
        start = end;
    }
}

// Puts items in order along the axis along which they are spread further.
fn order_part(part: &mut [Item])
    ensures { IsPermutation part.old part.new }
{
    if spread(part, Axis::X) >= spread(part, Axis::Y) {
        part.sort_unstable_by_key(|item| twice_middle(item, Axis::X));
    } else {
        part.sort_unstable_by_key(|item| twice_middle(item, Axis::Y));
    }
}

#[derive(Clone, Copy)]
enum Axis {
    X,
    Y,
}

// The lower and the upper side of an item along an axis.
fn sides(item: &Item, axis: Axis) -> (i64, i64) {
    let rect = &item.rect;
    match axis {
        Axis::X => (rect.x0, rect.x1),
        Axis::Y => (rect.y0, rect.y1),
    }
}

fn twice_middle(item: &Item, axis: Axis) -> i64 {
    let (low, high) = sides(item, axis);
    low.saturating_add(high)
}

// How many eighths of their mean side the middles of these rectangles are spread along an axis.
fn spread(items: &[Item], axis: Axis) -> u64 {
    let mut least = i64::MAX;
    let mut greatest = i64::MIN;
    let mut total: u64 = 0;
    for item in items {
        let (low, high) = sides(item, axis);
        let middle = low.saturating_add(high);
        least = least.min(middle);
        greatest = greatest.max(middle);
        total = total.saturating_add(high.abs_diff(low));
    }
    let eighths = (items.len() as u64).saturating_mul(8).saturating_add(1);
    greatest.abs_diff(least) / (total / eighths).max(1)
}
