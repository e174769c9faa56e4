//! The columns and edges at which terminals stand, clashes between positions, and the layer of spots.

ghost use Rattle.netlist_core.specs.Cells.{clashes, edge_of, is_on_layer, same_point};
ghost use Rattle.std.specs.List.{list_all, list_any};
ghost use Rattle.std.specs.Prelude.{◌≡◌, ◌<◌, [], ◌++◌, ◌∷◌, not, IfOk, IsTrue};
ghost use Rattle.std.specs.Str.{str_eq_ignore_ascii_case};

use crate::outline::Outline;
use crate::terminals::NumberedSpot;
use design_model::Position;
use indexmap::IndexSet;
use std::alloc::{AllocError, Global};

/// Where a position meets the cell's edge: at the top or at the bottom, in the middle of a column.
#[derive(Clone, Copy, Debug, PartialEq, Eq, Hash)]
pub(crate) struct Point {
    pub(crate) top: bool,
    pub(crate) column: u32,
}

/// The columns of an outline, from its left side on, each as wide as the pitch.
#[derive(Clone, Copy)]
pub(crate) struct Columns {
    pub(crate) outline: Outline,
    pub(crate) pitch: u32,
    ghost wide: { 0 < pitch },
}

impl Columns {
    ghost use Rattle.netlist_core.specs.Cells.{column_of, grid_positions, position_of, positions_of};
    ghost use Rattle.std.specs.Option.{option_map};
    ghost use Rattle.std.specs.Prelude.{◌≡◌, ◌/◌, IfOk, Vec};

    /// How many columns are whole.
    pub(crate) fn count(self) -> u32
        ensures { result ≡ self.outline.width / self.pitch }
    {
        self.outline.width / self.pitch
    }

    /// The positions at these spots of a module with this outline; None where the width is not whole columns or a spot is off
    /// the grid: not on the top or the bottom edge, or not in the middle of a column inside. The one error is want of memory.
    #[tactic(auto, unfolding(crate::specs::Cells::grid_positions))]
    pub(crate) fn grid_positions(
        self,
        alloc: Global,
        spots: &[NumberedSpot],
    ) -> Result<Option<Vec<Position>>, AllocError>
        ensures { IfOk result (λ positions. option_map (λ (v : Vec Position Global). v.items) positions ≡ grid_positions self.pitch self.outline spots.now) }
    {
        if self.outline.width % self.pitch != 0 {
            return Ok(None);
        }
        self.positions(alloc, spots)
    }

    // The positions at spots, or None where one is off the grid.
    #[tactic(auto, using(crate::proofs::Fronts::fronts))]
    fn positions(
        self,
        alloc: Global,
        spots: &[NumberedSpot],
    ) -> Result<Option<Vec<Position>>, AllocError>
        ensures { IfOk result (λ positions. option_map (λ (v : Vec Position Global). v.items) positions ≡ positions_of self.pitch self.outline spots.now) }
    {
        let mut positions = Vec::new(alloc);
        for spot in spots {
            let Some(position) = self.position(spot) else {
                return Ok(None);
            };
            positions.push(position)?;
        }
        Ok(Some(positions))
    }

    // The position at a spot, or None where that is off the grid.
    fn position(self, spot: &NumberedSpot) -> Option<Position>
        ensures { result ≡ position_of self.pitch self.outline spot.now }
    {
        let Some(top) = edge_of(self.outline.height, self.outline.low, spot.spot.y) else {
            return None;
        };
        let Some(column) = self.column(spot.spot.x) else {
            return None;
        };
        Some(Position {
            terminal: spot.terminal,
            top,
            column,
        })
    }

    // The column in whose middle x lies, or None where there is none.
    fn column(self, x: i64) -> Option<u32>
        ensures { result ≡ column_of self.pitch (self.outline.width / self.pitch) self.outline.left x }
    {
        if x < self.outline.left {
            return None;
        }
        let distance = x.abs_diff(self.outline.left);
        let pitch = u64::from(self.pitch);
        let column = distance / pitch;
        if distance % pitch == u64::from(self.pitch / 2) && column < u64::from(self.count()) {
            return Some(column as u32);
        }
        None
    }
}

// Whether y is the top edge, or None where it is neither edge.
fn edge_of(height: u32, low: i64, y: i64) -> Option<bool>
    ensures { result ≡ edge_of height low y }
{
    if y == low {
        return Some(false);
    }
    if low < y && y.abs_diff(low) == u64::from(height) {
        return Some(true);
    }
    None
}

/// Whether two of these positions share a point. The one error is want of memory.
pub(crate) fn has_clash(alloc: Global, positions: &[Position]) -> Result<bool, AllocError>
    ensures { IfOk result (λ clash. clash ≡ clashes [] positions.now) }
{
    let mut points = IndexSet::new(alloc);
    let mut rest = positions;
    while let Some((position, after)) = rest.split_first() {
        let point = Point {
            top: position.top,
            column: position.column,
        };
        if !is_new(&mut points, point)? {
            return Ok(true);
        }
        rest = after;
    }
    Ok(false)
}

// Whether this point is new among these, which have it then.
fn is_new(points: &mut IndexSet<Point>, point: Point) -> Result<bool, AllocError>
    ensures new { IfOk result (λ new. new ≡ not (list_any (same_point point) points.old.keys)) }
    ensures grown { IfOk result (λ new. IsTrue new → points.new.keys ≡ points.old.keys ++ point ∷ []) }
{
    match points.insert(point) {
        Ok(new) => Ok(new),
        Err(_) => Err(AllocError),
    }
}

/// Whether each of these spots is on the layer with this word, ASCII case aside. Takes no memory.
pub(crate) fn are_on_layer(word: &[u8], spots: &[NumberedSpot]) -> bool
    ensures { result ≡ list_all (is_on_layer word.now) spots.now }
{
    for spot in spots {
        if !is_same_word(spot.spot.layer.items(), word) {
            return false;
        }
    }
    true
}

// Whether two words are the same, ASCII case aside.
fn is_same_word(word: &[u8], other: &[u8]) -> bool
    ensures { result ≡ str_eq_ignore_ascii_case word.now other.now }
{
    word.eq_ignore_ascii_case(other)
}
