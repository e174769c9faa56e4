//! Puts the whole of some bytes to a sink.

ghost use Rattle.shelf_io.specs.Wrote.{Puts};

use crate::traits::{Failed, Sink};

/// Puts all of `bytes` to a sink, in one piece where it takes them so, and takes no memory.
///
/// After Failed, which comes only where the sink's count rose, a front of `bytes` was put.
pub fn put_whole<K: Sink>(out: &mut K, bytes: &[u8]) -> Result<(), Failed>
    ensures { Puts result bytes.now (K.written out.old) (K.written out.new) (K.faults out.old) (K.faults out.new) (K.same_place out.old out.new) (K.else_same out.old out.new) }
{
    let mut done = 0;
    while done < bytes.len() {
        done += out.put(&bytes[done..])?;
    }
    Ok(())
}
