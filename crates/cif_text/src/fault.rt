//! What is wrong with a text that has no reading as CIF, and at which byte.

use thiserror::Error;

/// What is wrong with a text that has no reading as CIF.
#[derive(Clone, Copy, Debug, PartialEq, Eq)]
pub enum CifKind {
    /// A byte above 127; the place is the first such byte.
    NotAscii,
    /// A comment without its closing parenthesis; the place is the command's first byte.
    Unclosed,
    /// No form of a command; the place is the command's first byte.
    BadCommand,
    /// A number of magnitude above 1,000,000,000,000; the place is its first byte. Or the whole offset of a call is
    /// such; the place is then the command's first byte.
    Number,
    /// The text ends before its end command, a command without a semicolon included; the place is the text's length.
    /// Or the end command stands inside a definition; the place is then that command.
    NoEnd,
    /// A command of CIF that is not read; this is the byte of its letter, `R` or the `D` of a deletion. The
    /// place is the command's first byte.
    LeftOut(u8),
    /// The direction of a box or of a call's turn is (0, 0) or not along an axis, or two successive points of a path differ in
    /// both x and y, the last and the first point of a polygon included; the place is the command's first byte.
    Turned,
}

/// Why the commands of a text were not read.
#[derive(Clone, Copy, Debug, PartialEq, Eq, Error)]
pub enum CifFault {
    /// The text has no reading, for the reason of `kind` at the byte `at`.
    #[error("the text has no reading as CIF")]
    Bad { kind: CifKind, at: u64 },
    /// Memory ran out.
    #[error("memory ran out")]
    Memory,
}

/// A flaw of a text that is to be CIF.
pub(crate) type Flaw = read_base::Flaw<CifKind>;

/// Why reading such a text ended early.
pub(crate) type Stop = read_base::Stop<CifKind>;
