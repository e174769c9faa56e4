//! Bytes that go to a sink in whole pieces.

ghost use Rattle.shelf_io.specs.Wrote.{Puts, Writes};
ghost use Rattle.std.specs.Prelude.{◌≡◌, ◌≤◌, ◌<◌, ◌+◌, ◌++◌, [], length, take};

use crate::printing::put_whole;
use crate::traits::{Failed, Sink};
use limits::PIECE;
use std::marker::Model;

/// Fewer than 4,096 bytes that are still to be put to a sink. All calls for one text are given the same sink. Contracts see the bytes. No call takes memory.
///
/// After Failed, which comes only where the sink's count rose in that call, a front of the text was put, and the buffer is given up.
#[derive(Debug, Drop)]
pub struct Buffer {
    bytes: [u8; PIECE],
    len: usize,
}

impl Model for Buffer {
    ghost use Rattle.std.specs.Prelude.{List, ℕ, ◌<◌, take};
    ghost use Rattle.limits.specs.declared.TheConstants.{PIECE};

    ghost Value = { List ℕ };

    ghost view = { λ buffer. take buffer.len buffer.bytes };

    ghost invariant = { λ buffer. buffer.len < PIECE };
}

// Lays bytes behind the first `at` of a piece, and gives where they end.
fn lay(piece: &mut [u8; PIECE], at: usize, bytes: &[u8]) -> usize
    requires { at + length bytes.now ≤ PIECE }
    ensures text { take result piece.new ≡ take at piece.old ++ bytes.now }
    ensures end { result ≡ at + length bytes.now }
{
    let end = at + bytes.len();
    piece[at..end].copy_from_slice(bytes);
    end
}

impl Buffer {
    /// A buffer without bytes.
    pub fn new() -> Buffer
        ensures { result ≡ [] }
    {
        Buffer {
            bytes: [0; PIECE],
            len: 0,
        }
    }

    /// A buffer with these bytes.
    pub fn with(bytes: &[u8]) -> Buffer
        requires { length bytes.now < PIECE }
        ensures { result ≡ bytes.now }
    {
        let mut piece = [0; PIECE];
        let len = lay(&mut piece, 0, bytes);
        Buffer { bytes: piece, len }
    }

    // Buffers bytes for which there is room, and puts the piece that is whole then.
    fn fill<K: Sink>(&mut self, out: &mut K, bytes: &[u8]) -> Result<(), Failed>
        requires { length self.old + length bytes.now ≤ PIECE }
        ensures { Writes result bytes.now self.old self.new (K.written out.old) (K.written out.new) (K.faults out.old) (K.faults out.new) (K.same_place out.old out.new) (K.else_same out.old out.new) }
    {
        let end = lay(&mut self.bytes, self.len, bytes);
        if end < PIECE {
            self.len = end;
            return Ok(());
        }
        self.len = 0;
        put_whole(out, &self.bytes[..end])
    }

    /// Puts bytes behind those that are buffered. Whole pieces go to the sink.
    pub fn append<K: Sink>(&mut self, out: &mut K, bytes: &[u8]) -> Result<(), Failed>
        ensures { Writes result bytes.now self.old self.new (K.written out.old) (K.written out.new) (K.faults out.old) (K.faults out.new) (K.same_place out.old out.new) (K.else_same out.old out.new) }
    {
        let mut rest = bytes;
        while !rest.is_empty() {
            let (piece, after) = rest.split_at(rest.len().min(PIECE - self.len));
            self.fill(out, piece)?;
            rest = after;
        }
        Ok(())
    }

    /// Puts all that is buffered, where there is anything, in one piece where the sink takes it so. Nothing is buffered then.
    pub fn flush<K: Sink>(&mut self, out: &mut K) -> Result<(), Failed>
        ensures put { Puts result self.old (K.written out.old) (K.written out.new) (K.faults out.old) (K.faults out.new) (K.same_place out.old out.new) (K.else_same out.old out.new) }
        ensures empty { self.new ≡ [] }
    {
        let end = self.len;
        self.len = 0;
        put_whole(out, &self.bytes[..end])
    }
}
