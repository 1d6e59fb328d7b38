//! Writing the whole of some bytes.
ghost use Rattle.std.specs.Prelude.{◌≡◌, ◌≤◌, length, drop, OnErr, OnOk, IsErrOf};
ghost use Rattle.simplex_io.specs.Io.{Adds, AddsPart, Rose};

use crate::sink::{Sink, SinkError};

// What comes behind the first n.
fn after(bytes: &[u8], n: usize) -> &[u8]
    requires { n ≤ length bytes.now }
    ensures { result.now ≡ drop n bytes.now }
{
    &bytes[n..]
}

/// Writes all the bytes, or answers why only the first of them were written.
pub fn write_text<K: Sink>(sink: &mut K, bytes: &[u8]) -> Result<(), SinkError>
    ensures ok { OnOk result (Adds (K.written sink.old) bytes.now (K.written sink.new)) }
    ensures err { OnErr result (AddsPart (K.written sink.old) bytes.now (K.written sink.new)) }

    ensures failed { IsErrOf result SinkError.Failed
        → Rose (K.fault_count sink.old) (K.fault_count sink.new) }
    ensures quiet { ¬ IsErrOf result SinkError.Failed
        → K.fault_count sink.new ≡ K.fault_count sink.old }
    ensures later { K.fault_count sink.old ≤ K.fault_count sink.new }
{
    let mut rest = bytes;
    while !rest.is_empty() {
        let n = sink.write(rest)?;
        rest = after(rest, n as usize);
    }
    Ok(())
}
