//! Tables by numbers from 0 on: entries that are added, read and written.

ghost use Rattle.std.specs.Prelude.{◌≡◌, ◌+◌, ◌-◌, ◌++◌, ℕ, OnOk, length, replicate, slice_index, slice_set};

use std::alloc::AllocError;

// Adds entries of this value up to that of a number, where there is none yet.
pub(crate) fn reach(table: &mut Vec<u32>, number: u32, value: u32) -> Result<(), AllocError>
    ensures longer { OnOk result (table.new.items ≡ table.old.items ++ replicate (number + 1 - length table.old.items) value) }
    ensures alike { value ≡ 0 → (k : ℕ) → slice_index table.new.items k ≡ slice_index table.old.items k }
{
    'entries: while table.len() <= number as usize {
        table.push(value)?;
    }
    Ok(())
}

// The entry of a number, 0 past the end.
pub(crate) fn entry(table: &[u32], number: u32) -> u32
    ensures { result ≡ slice_index table.now number }
{
    match table.get(number as usize) {
        Some(value) => *value,
        None => 0,
    }
}

// Writes the entry of a number, where there is one.
pub(crate) fn put(table: &mut Vec<u32>, number: u32, value: u32)
    ensures { table.new.items ≡ slice_set table.old.items number value }
{
    let number = number as usize;
    if number < table.len() {
        table[number] = value;
    }
}
