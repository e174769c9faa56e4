//! What is wrong with a text that is no YAL file, and at which byte.

use thiserror::Error;

/// What is wrong with a text that is no YAL file.
#[derive(Clone, Copy, Debug, PartialEq, Eq)]
pub enum YalKind {
    /// A byte above 127; the place is the first such byte.
    NotAscii,
    /// A comment without an end; the place is its first byte.
    OpenComment,
    /// A word or a `;` stands where the grammar has none such; the place is its first byte.
    Word,
    /// The text ends inside a module; the place is the text's length.
    Ends,
    /// A number is called for and another word stands there; the place is its first byte.
    Number,
    /// A module's name, a section, or an instance's name a second time; the place is its first byte.
    Twice,
}

/// Why a text was not read.
#[derive(Clone, Copy, Debug, PartialEq, Eq, Error)]
pub enum YalFault {
    /// The text is no YAL file, for the reason of `kind` at the byte `at`.
    #[error("the text is no YAL file")]
    Bad { kind: YalKind, at: u64 },
    /// Memory ran out.
    #[error("memory ran out")]
    Memory,
}

/// A flaw of a text that is to be YAL.
pub(crate) type Flaw = read_base::Flaw<YalKind>;

/// Why reading such a text ended early.
pub(crate) type Stop = read_base::Stop<YalKind>;
