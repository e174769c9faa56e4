//! The reasons for which a CIF command gives no layout, the one that is told first standing first.

use thiserror::Error;

/// Why a command of CIF gives no layout. Where several apply to one command, the first of this list is the refusal.
#[derive(Clone, Copy, Debug, PartialEq, Eq)]
pub enum ExpandKind {
    /// A call of this symbol, whose definition has not ended before.
    Undefined(u64),
    /// A second definition of this symbol.
    Twice(u64),
    /// A number that the scale of its definition does not make whole in half centimicrons.
    Inexact,
    /// The offset of a call, a corner of a polygon, or a coordinate of a shape that another command gives, has a magnitude above 4,000,000,000 half
    /// centimicrons; this is the first such number.
    TooFar(i128),
    /// More than 2,000 points of a polygon, as they are written.
    LongPath,
    /// More than 4,000,000 shapes in a definition or at the main level.
    TooMany,
    /// A box, a wire or a polygon without a layer.
    NoLayer,
    /// A named call of a symbol without a name.
    NoSymbolName,
    /// A call that makes a depth above 64.
    TooDeep,
}

/// Why commands were not expanded.
#[derive(Clone, Copy, Debug, PartialEq, Eq, Error)]
pub enum ExpandFault {
    /// The command of number `at`, from 0 on, gives no layout, for the reason of `kind`.
    #[error("the commands give no layout")]
    Bad { kind: ExpandKind, at: u32 },
    /// Memory ran out.
    #[error("memory ran out")]
    Memory,
}
