//! Rows by the height at which they stand, numbered as they come up.

ghost use Rattle.rule_check.specs.Rows.{AreRows, row_at};
ghost use Rattle.std.specs.BTreeMap.{btree_map_len};
ghost use Rattle.std.specs.Prelude.{◌≡◌, ◌+◌, ◌<◌, ◌≤◌, ◌^◌, ℕ, ℤ, Some, IfOk};

use std::alloc::AllocError;
use std::collections::BTreeMap;

// Rows by the heights of their lower edges, each with its number.
pub(crate) type Rows = BTreeMap<i64, u32>;

// The number of the row that stands at this height, which is a new one where there is none.
pub(crate) fn row_of(rows: &mut Rows, base: i64) -> Result<u32, AllocError>
    requires few { btree_map_len rows.old < 2 ^ 32 }
    requires numbered { AreRows rows.old }
    ensures numbered { AreRows rows.new }
    ensures told { IfOk result (λ n. row_at rows.new base ≡ Some n) }
    ensures kept { (h : ℤ) (n : ℕ) → row_at rows.old h ≡ Some n → row_at rows.new h ≡ Some n }
    ensures len { btree_map_len rows.new ≤ btree_map_len rows.old + 1 }
{
    if let Some(number) = rows.get(&base).copied() {
        return Ok(number);
    }
    let number = rows.len() as u32;
    rows.insert(base, number)?;
    Ok(number)
}
