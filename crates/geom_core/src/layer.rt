//! The layer names of CIF: one to four digits or upper-case letters.

ghost use Rattle.geom_core.specs.LayerText.{is_layer_code, is_layer_text, filled};
ghost use Rattle.std.specs.List.{list_all};
ghost use Rattle.std.specs.Prelude.{◌≡◌, ◌≤◌, ◌↔◌, length, true, IsSome, IfSome};

use std::marker::Model;

/// A layer name of CIF: one to four digits or upper-case letters (Mead and Conway's CIF 2.0).
/// The first `length` bytes are the name, and the others are 0.
#[derive(Clone, Copy, Debug, PartialEq, Eq)]
pub struct LayerName {
    pub bytes: [u8; 4],
    pub length: u8,
}

impl Model for LayerName {
    ghost use Rattle.std.specs.Prelude.{List, ℕ};

    ghost Value = { List ℕ };

    ghost use Rattle.geom_core.specs.LayerView.{layer_text, IsNamed, inside_of, inverse_is};

    ghost view = { layer_text };

    ghost invariant = { IsNamed };

    ghost inverse = { inside_of };

    ghost inverse_ok = { inverse_is };
}

impl LayerName {
    /// The layer name of these bytes, or None exactly where they are no layer name. Takes no memory.
    pub fn new(bytes: &[u8]) -> Option<LayerName>
        ensures valid { IsSome result ↔ (is_layer_text bytes.now ≡ true) }
        ensures name { IfSome result (λ n. n ≡ bytes.now) }
    {
        if bytes.is_empty() || bytes.len() > 4 || !are_layer_bytes(bytes) {
            return None;
        }
        Some(LayerName {
            bytes: padded(bytes),
            length: bytes.len() as u8,
        })
    }

    /// The bytes of the name, one to four. Takes no memory.
    pub fn text(&self) -> &[u8]
        ensures text { result.now ≡ self.now }
        ensures valid { is_layer_text self.now ≡ true }
    {
        &self.bytes[..self.length as usize]
    }
}

fn is_layer_byte(byte: u8) -> bool
    ensures { result ≡ is_layer_code byte }
{
    byte.is_ascii_digit() || byte.is_ascii_uppercase()
}

fn are_layer_bytes(bytes: &[u8]) -> bool
    ensures { result ≡ list_all is_layer_code bytes.now }
{
    bytes.iter().all(|byte| is_layer_byte(*byte))
}

// The bytes, with zeros up to four.
fn padded(bytes: &[u8]) -> [u8; 4]
    requires some { 1 ≤ length bytes.now }
    requires few { length bytes.now ≤ 4 }
    ensures { result ≡ filled bytes.now }
{
    match bytes {
        [a] => [*a, 0, 0, 0],
        [a, b] => [*a, *b, 0, 0],
        [a, b, c] => [*a, *b, *c, 0],
        [a, b, c, d] => [*a, *b, *c, *d],
        _ => unreachable!(),
    }
}
