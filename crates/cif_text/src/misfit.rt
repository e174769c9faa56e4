//! Why the bytes of a command have none of its forms.

/// Why the bytes of a command have none of its forms.
#[derive(Clone, Copy, Debug)]
pub(crate) enum Misfit {
    /// The form calls for a number, and one that is too great begins so many bytes before the command's semicolon.
    TooGreat(usize),
    /// Anything else.
    Malformed,
}
