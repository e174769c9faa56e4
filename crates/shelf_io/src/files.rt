//! NamedFiles in memory: the bytes under each name.

ghost use Rattle.std.specs.Prelude.{◌≡◌, ◌≢◌, ◌<◌, ◌-◌, List, ℕ, Some, None, [], OnOk, OnErr, length, min};
ghost use Rattle.shelf_io.specs.Files.{held};
ghost use Rattle.shelf_io.specs.Told.{Gives, appended};

use crate::traits::Failed;
use std::alloc::{AllocError, Global};
use std::collections::BTreeMap;

/// The files, by their names.
pub(crate) type NamedFiles = BTreeMap<String, Vec<u8>>;

/// Makes the name hold the bytes.
#[tactic(auto, using(std::proofs::lemmas::Map::Text::text_keys))]
pub(crate) fn replace(
    alloc: Global,
    files: &mut NamedFiles,
    name: &str,
    bytes: &[u8],
) -> Result<(), AllocError>
    ensures held { OnOk result (held files.new name.now ≡ Some bytes.now) }
    ensures others { (other : List ℕ) → other ≢ name.now
        → held files.new other ≡ held files.old other }
    ensures refused { OnErr result (held files.new ≡ held files.old) }
{
    let key = String::from_str(alloc, name)?;
    let file = Vec::from_slice(alloc, bytes)?;
    files.insert(key, file)?;
    Ok(())
}

/// Makes the name hold nothing, which takes memory only where it is lacking.
#[tactic(auto, using(std::proofs::lemmas::Map::Text::text_keys))]
pub(crate) fn empty(alloc: Global, files: &mut NamedFiles, name: &str) -> Result<(), AllocError>
    ensures held { OnOk result (held files.new name.now ≡ Some []) }
    ensures others { (other : List ℕ) → other ≢ name.now
        → held files.new other ≡ held files.old other }
    ensures refused { OnErr result (held files.new ≡ held files.old) }
    ensures lacking { OnErr result (held files.old name.now ≡ None) }
{
    if let Some(file) = files.get_mut(name) {
        file.clear();
        return Ok(());
    }
    replace(alloc, files, name, &[])
}

/// Puts the piece at the end of the name's bytes. Failed comes where the name is lacking or memory
/// is wanting; an empty piece takes none.
#[tactic(auto, using(std::proofs::lemmas::Map::Text::text_keys))]
pub(crate) fn append(files: &mut NamedFiles, name: &str, piece: &[u8]) -> Result<(), Failed>
    ensures appended { OnOk result (held files.new name.now
        ≡ appended (held files.old name.now) piece.now) }
    ensures lacking { OnOk result (held files.old name.now ≢ None) }
    ensures empty { length piece.now ≡ 0 → OnErr result (held files.old name.now ≡ None) }
    ensures same { OnErr result (held files.new name.now ≡ held files.old name.now) }
    ensures others { (other : List ℕ) → other ≢ name.now
        → held files.new other ≡ held files.old other }
{
    match files.get_mut(name) {
        Some(_) if piece.is_empty() => Ok(()),
        Some(file) => match file.extend_from_slice(piece) {
            Ok(()) => Ok(()),
            Err(_) => Err(Failed),
        },
        None => Err(Failed),
    }
}

/// Takes the name away.
#[tactic(auto, using(std::proofs::lemmas::Map::Text::text_keys))]
pub(crate) fn forget(files: &mut NamedFiles, name: &str)
    ensures lacking { held files.new name.now ≡ None }
    ensures others { (other : List ℕ) → other ≢ name.now
        → held files.new other ≡ held files.old other }
{
    let _file = files.remove(name);
}

/// Fills a front of `into` with the file's bytes from place `at` on, as far as both reach, and
/// gives how many there are.
pub(crate) fn copy_from(file: &[u8], at: u64, into: &mut [u8]) -> usize
    requires { 0 < length into.old }
    ensures count { result ≡ min (length into.old) (length file.now - at) }
    ensures gives { Gives file.now at result into.new }
{
    let start = file.len().min(at as usize);
    let n = into.len().min(file.len() - start);
    into[..n].copy_from_slice(&file[start..start + n]);
    n
}
