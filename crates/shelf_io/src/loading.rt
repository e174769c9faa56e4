//! Reads the whole of a file into memory.

ghost use Rattle.std.specs.Prelude.{◌≡◌, ◌<◌, ◌≤◌, ◌^◌, ◌+◌, ◌-◌, List, ℕ, length, Some, IfOk, IsErrOf};
ghost use Rattle.shelf_io.specs.Count.{Rose};
ghost use Rattle.shelf_io.specs.Loading.{UnlessReadFault};
ghost use Rattle.shelf_io.specs.declared.loading.LoadFault.TheVariants.{ReadFault, TooLong, Memory};

use crate::traits::Shelf;
use limits::PIECE;
use std::alloc::{AllocError, Global};
use thiserror::Error;

/// Why a file was not loaded.
#[derive(Debug, Drop, PartialEq, Eq, Error)]
pub enum LoadFault {
    /// A take failed.
    #[error("the file can't be read")]
    ReadFault,
    /// More bytes came than the limit allows.
    #[error("the file is too long")]
    TooLong,
    /// There was no memory for the bytes.
    #[error("there is no memory for the file")]
    Memory,
}

impl From<AllocError> for LoadFault {
    ghost use Rattle.std.specs.Prelude.{◌≡◌};
    ghost use Rattle.shelf_io.specs.declared.loading.LoadFault.TheVariants.{Memory};

    ghost from_gives = { λ _ fault. fault ≡ Memory };

    fn from(_: AllocError) -> Self {
        LoadFault::Memory
    }
}

/// All bytes under the name, if they are at most `limit`.
///
/// ReadFault comes exactly where the name's read count rose in this call, and TooLong only where
/// more than `limit` bytes came. The files stay as they are, whatever the answer.
pub fn load<S: Shelf>(
    alloc: Global,
    shelf: &mut S,
    name: &str,
    limit: u64,
) -> Result<Vec<u8>, LoadFault>
    requires { limit < 2 ^ 32 }
    ensures whole { IfOk result (λ v. (bytes : List ℕ) → S.holds shelf.old name.now ≡ Some bytes
        → v.items ≡ bytes) }
    ensures short { IfOk result (λ v. length v.items ≤ limit) }
    ensures long { IsErrOf result LoadFault.TooLong
        → (bytes : List ℕ) → S.holds shelf.old name.now ≡ Some bytes → limit < length bytes }
    ensures files { S.holds shelf.new ≡ S.holds shelf.old }
    ensures writes { S.write_faults shelf.new ≡ S.write_faults shelf.old }
    ensures failed { IsErrOf result LoadFault.ReadFault
        → Rose (S.read_faults shelf.old name.now) (S.read_faults shelf.new name.now) }
    ensures quiet { UnlessReadFault result (S.read_faults shelf.new ≡ S.read_faults shelf.old) }
    ensures later { (n : List ℕ) → S.read_faults shelf.old n ≤ S.read_faults shelf.new n }
{
    let mut all = Vec::new(alloc);
    let mut piece = [0u8; PIECE];
    loop {
        let Ok(n) = shelf.take(name, all.len() as u64, &mut piece) else {
            return Err(LoadFault::ReadFault);
        };
        if n == 0 {
            return Ok(all);
        }
        all.extend_from_slice(&piece[..n])?;
        if all.len() as u64 > limit {
            return Err(LoadFault::TooLong);
        }
    }
}
