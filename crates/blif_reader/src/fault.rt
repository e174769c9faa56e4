//! Why a text was not read as BLIF: what is wrong with a text that is none, and at which byte.

use thiserror::Error;

/// What is wrong with a text that is no BLIF file.
#[derive(Clone, Copy, Debug, PartialEq, Eq)]
pub enum BlifKind {
    /// Outside comments, a byte that is neither a blank nor the end of a line and cannot stand in a name, or a `/` before a `*`; the place is that byte.
    Byte,
    /// A word or the end of a line stands where the grammar has none such; the place is its first byte.
    Word,
    /// The text ends before `.end`; the place is the text's length.
    Ends,
    /// A directive that is not read; the place is its first byte.
    Directive,
    /// A second model; the place is its `.model`.
    Model,
    /// A `.cname` that no gate stands just before; the place is its first byte.
    Cname,
    /// A pin without a terminal, a `=` or a net; the place is its first byte.
    Pin,
    /// A table other than those of a constant and of two words that are one net; the place is its `.names`.
    Table,
}

/// Why a text was not read.
#[derive(Clone, Copy, Debug, PartialEq, Eq, Error)]
pub enum BlifFault {
    /// The text is no BLIF file, for the reason of `kind` at the byte `at`.
    #[error("the text is no BLIF file")]
    Bad { kind: BlifKind, at: u64 },
    /// Memory ran out.
    #[error("memory ran out")]
    Memory,
}

/// A flaw of a text that is to be BLIF.
pub(crate) type Flaw = read_base::Flaw<BlifKind>;

/// Why reading such a text ended early.
pub(crate) type Stop = read_base::Stop<BlifKind>;
