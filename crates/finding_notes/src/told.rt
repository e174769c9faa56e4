//! What is told of a finding, and where it is.

/// What is told of a finding behind its line, and the shapes by whose lines in the text it is found.
#[derive(Drop)]
pub(crate) struct Told {
    pub(crate) text: String,
    pub(crate) first: Option<u32>,
    pub(crate) second: Option<u32>,
}
