//! Blanks, separators, digits and layer letters at the front of a text, and a command's bytes up to its semicolon.

ghost use Rattle.cif_text.specs.Bytes.{begins, is_between as is_between_byte, is_blank as is_blank_byte, is_separator as is_separator_byte, is_white as is_white_byte, not_semicolon, skip, span, trimmed, without_tail};
ghost use Rattle.cif_text.specs.Labels.{is_word};
ghost use Rattle.geom_core.specs.LayerText.{is_layer_code};
ghost use Rattle.std.specs.Char.{is_ascii_digit as is_digit_byte};
ghost use Rattle.std.specs.List.{list_all, prefix_len};
ghost use Rattle.std.specs.Prelude.{◌≡◌, ◌≤◌, ◌+◌, length, true, ◌==◌};

/// Whether a byte is a blank: any but a digit, an upper-case letter, `-`, `(`, `)` and `;`.
fn is_blank(byte: u8) -> bool
    ensures { result ≡ is_blank_byte byte }
{
    !(byte.is_ascii_digit()
        || byte.is_ascii_uppercase()
        || byte == b'-'
        || byte == b'('
        || byte == b')'
        || byte == b';')
}

/// Whether a byte is a separator: a blank or an upper-case letter.
fn is_separator(byte: u8) -> bool
    ensures { result ≡ is_separator_byte byte }
{
    byte.is_ascii_uppercase() || is_blank(byte)
}

/// Whether a byte may stand between commands: a blank or a semicolon.
fn is_between(byte: u8) -> bool
    ensures { result ≡ is_between_byte byte }
{
    is_blank(byte) || byte == b';'
}

/// Whether a byte is left out at both ends of a user command's text.
fn is_white(byte: u8) -> bool
    ensures { result ≡ is_white_byte byte }
{
    byte <= 32 || byte == 127
}

/// Whether there are blanks alone.
pub(crate) fn are_blanks(bytes: &[u8]) -> bool
    ensures { result ≡ list_all is_blank_byte bytes.now }
{
    bytes.iter().all(|byte| is_blank(*byte))
}

/// Whether there are separators alone.
pub(crate) fn are_separators(bytes: &[u8]) -> bool
    ensures { result ≡ list_all is_separator_byte bytes.now }
{
    bytes.iter().all(|byte| is_separator(*byte))
}

/// Whether this byte stands first.
pub(crate) fn begins_with(byte: u8, bytes: &[u8]) -> bool
    ensures { result ≡ begins (λ c. c == byte) bytes.now }
{
    match bytes.split_first() {
        Some((first, _)) => *first == byte,
        None => false,
    }
}

/// Whether a blank stands first.
pub(crate) fn begins_with_blank(bytes: &[u8]) -> bool
    ensures { result ≡ begins is_blank_byte bytes.now }
{
    match bytes.split_first() {
        Some((first, _)) => is_blank(*first),
        None => false,
    }
}

/// Whether a separator stands first.
pub(crate) fn begins_with_separator(bytes: &[u8]) -> bool
    ensures { result ≡ begins is_separator_byte bytes.now }
{
    match bytes.split_first() {
        Some((first, _)) => is_separator(*first),
        None => false,
    }
}

/// What stands behind the blanks that come first.
pub(crate) fn after_blanks(bytes: &[u8]) -> &[u8]
    ensures rest { result.now ≡ skip is_blank_byte bytes.now }
    ensures shorter { length result.now ≤ length bytes.now }
{
    let mut rest = bytes;
    while let Some((byte, after)) = rest.split_first() {
        if !is_blank(*byte) {
            return rest;
        }
        rest = after;
    }
    rest
}

/// What stands behind the separators that come first.
pub(crate) fn after_separators(bytes: &[u8]) -> &[u8]
    ensures rest { result.now ≡ skip is_separator_byte bytes.now }
    ensures shorter { length result.now ≤ length bytes.now }
{
    let mut rest = bytes;
    while let Some((byte, after)) = rest.split_first() {
        if !is_separator(*byte) {
            return rest;
        }
        rest = after;
    }
    rest
}

/// The command that comes next and all behind it: blanks and semicolons before it are passed over.
pub(crate) fn after_between(bytes: &[u8]) -> &[u8]
    ensures rest { result.now ≡ skip is_between_byte bytes.now }
    ensures shorter { length result.now ≤ length bytes.now }
{
    let mut rest = bytes;
    while let Some((byte, after)) = rest.split_first() {
        if !is_between(*byte) {
            return rest;
        }
        rest = after;
    }
    rest
}

fn digits_len(bytes: &[u8]) -> usize
    ensures { result ≡ prefix_len is_digit_byte bytes.now }
{
    bytes
        .iter()
        .take_while(|byte| byte.is_ascii_digit())
        .count()
}

/// The digits that come first, and what stands behind them.
pub(crate) fn split_digits(bytes: &[u8]) -> (&[u8], &[u8])
    ensures { (result.0.now, result.1.now) ≡ span is_digit_byte bytes.now }
{
    bytes.split_at(digits_len(bytes))
}

fn word_len(text: &[u8]) -> usize
    ensures { result ≡ prefix_len is_word text.now }
{
    text.iter().take_while(|byte| !is_white(**byte)).count()
}

/// The text up to the first white, and what stands from it on.
pub(crate) fn split_word(text: &[u8]) -> (&[u8], &[u8])
    ensures { (result.0.now, result.1.now) ≡ span is_word text.now }
{
    text.split_at(word_len(text))
}

fn is_layer_byte(byte: u8) -> bool
    ensures { result ≡ is_layer_code byte }
{
    byte.is_ascii_digit() || byte.is_ascii_uppercase()
}

fn layer_len(bytes: &[u8]) -> usize
    ensures { result ≡ prefix_len is_layer_code bytes.now }
{
    bytes
        .iter()
        .take_while(|byte| is_layer_byte(**byte))
        .count()
}

/// The digits and upper-case letters that come first, and what stands behind them.
pub(crate) fn split_layer(bytes: &[u8]) -> (&[u8], &[u8])
    ensures { (result.0.now, result.1.now) ≡ span is_layer_code bytes.now }
{
    bytes.split_at(layer_len(bytes))
}

fn body_len(bytes: &[u8]) -> usize
    ensures { result ≡ prefix_len not_semicolon bytes.now }
{
    bytes.iter().take_while(|byte| **byte != b';').count()
}

/// What stands before the semicolon that comes next, and what stands from it on.
pub(crate) fn split_body(bytes: &[u8]) -> (&[u8], &[u8])
    ensures parts { (result.0.now, result.1.now) ≡ span not_semicolon bytes.now }
    ensures whole { length result.0.now + length result.1.now ≡ length bytes.now }
{
    bytes.split_at(body_len(bytes))
}

/// The text without the white at its end.
fn before_tail(text: &[u8]) -> &[u8]
    ensures { result.now ≡ without_tail text.now }
{
    let mut front = text;
    while let Some((byte, before)) = front.split_last() {
        if !is_white(*byte) {
            return front;
        }
        front = before;
    }
    front
}

/// What stands behind the white that comes first.
fn after_white(text: &[u8]) -> &[u8]
    ensures { result.now ≡ skip is_white_byte text.now }
{
    let mut rest = text;
    while let Some((byte, after)) = rest.split_first() {
        if !is_white(*byte) {
            return rest;
        }
        rest = after;
    }
    rest
}

/// The text without the white at both ends.
pub(crate) fn without_white(text: &[u8]) -> &[u8]
    ensures { result.now ≡ trimmed text.now }
{
    before_tail(after_white(text))
}
