//! An index from symbol numbers to places in the symbol table.

ghost use Rattle.cif_reader.specs.Places.{IsEntered};
ghost use Rattle.std.specs.BTreeMap.{IsUnchanged, get};
ghost use Rattle.std.specs.Ordering.{nat_cmp};
ghost use Rattle.std.specs.Prelude.{◌≡◌, OnErr, OnOk};

use std::alloc::AllocError;
use std::collections::BTreeMap;

/// The places of symbols in the table, by their numbers.
pub(crate) type Places = BTreeMap<u64, usize>;

/// The place of the symbol of this number.
pub(crate) fn place_of(places: &Places, n: u64) -> Option<usize>
    ensures { result ≡ get nat_cmp places.now n }
{
    places.get(&n).copied()
}

/// Enters the place of a symbol of this number, unless there is an earlier one.
pub(crate) fn enter(places: &mut Places, n: u64, place: usize) -> Result<(), AllocError>
    ensures ok { OnOk result (IsEntered places.old places.new n place) }
    ensures err { OnErr result (IsUnchanged places.old places.new) }
{
    if places.contains_key(&n) {
        return Ok(());
    }
    places.insert(n, place)?;
    Ok(())
}
