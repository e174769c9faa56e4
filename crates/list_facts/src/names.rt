//! The number of a name in a set kept in the order of first mention, and whether it is new there.

ghost use Rattle.list_facts.specs.Names.{mention, place_among};
ghost use Rattle.list_facts.specs.Texts.{texts};
ghost use Rattle.std.specs.List.{list_any};
ghost use Rattle.std.specs.Prelude.{◌≡◌, ◌+◌, ◌≤◌, ◌++◌, ◌∷◌, [], length, not, if◌then◌else◌, IfOk, OnOk, OnErr};
ghost use Rattle.std.specs.Str.{bytes_eq};

use indexmap::IndexSet;
use std::alloc::AllocError;

/// The number of a name: its place among the names mentioned so far, at whose end it is put where it is new.
/// The one error is want of memory, which leaves the names as they were.
pub fn number<'a>(names: &mut IndexSet<&'a [u8]>, name: &'a [u8]) -> Result<usize, AllocError>
    ensures grown { OnOk result (texts names.new.keys ≡ mention (texts names.old.keys) name.entry.now) }
    ensures place { IfOk result (λ n. n ≡ place_among (texts names.old.keys) name.entry.now) }
    ensures within { IfOk result (λ n. n ≤ length (texts names.old.keys)) }
    ensures few { OnOk result (length (texts names.new.keys) ≤ length (texts names.old.keys) + 1) }
    ensures kept { OnErr result (texts names.new.keys ≡ texts names.old.keys) }
{
    match names.insert_full(name) {
        Ok((n, _)) => Ok(n),
        Err(_) => Err(AllocError),
    }
}

/// Whether this name is new among these, which have it then. The one error is want of memory, which leaves the names as they were.
pub fn is_new<'a>(names: &mut IndexSet<&'a [u8]>, name: &'a [u8]) -> Result<bool, AllocError>
    ensures new { IfOk result (λ new. new ≡ not (list_any (bytes_eq name.entry.now) (texts names.old.keys))) }
    ensures grown { IfOk result (λ new. texts names.new.keys ≡ (if new then texts names.old.keys ++ name.entry.now ∷ [] else texts names.old.keys)) }
    ensures kept { OnErr result (texts names.new.keys ≡ texts names.old.keys) }
{
    match names.insert(name) {
        Ok(new) => Ok(new),
        Err(_) => Err(AllocError),
    }
}

/// The place of a name among these, or their number where it is not among them. Takes no memory.
pub fn place_of(names: &IndexSet<&[u8]>, name: &[u8]) -> usize
    ensures is { result ≡ place_among (texts names.now.keys) name.now }
    ensures within { result ≤ length (texts names.now.keys) }
{
    match names.get_index_of(name) {
        Some(place) => place,
        None => names.len(),
    }
}

/// Whether a name is among these. Takes no memory.
pub fn is_among(names: &IndexSet<&[u8]>, name: &[u8]) -> bool
    ensures { result ≡ list_any (bytes_eq name.now) (texts names.now.keys) }
{
    names.contains(name)
}
