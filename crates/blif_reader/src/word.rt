//! A word of the text with its place, as the bytes that are left from it on.

/// A word of the text: its bytes, and how many bytes of the text are left from its first one on.
#[derive(Clone, Copy)]
pub(crate) struct Word<'a> {
    pub(crate) text: &'a [u8],
    pub(crate) left: usize,
}
