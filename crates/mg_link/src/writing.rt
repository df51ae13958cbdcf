//! The whole text.
ghost use Rattle.std.specs.Prelude.{OnOk, OnErr};
ghost use Rattle.std.specs.Io.KnownBytes.{Appends};
ghost use Rattle.mg_link.specs.Causes.{HasCause};
ghost use Rattle.mg_link.specs.Ends.{TookFront};

use crate::ends::{Sink, WriteFailed};

/// Writes the whole text. After a failed write the sink has taken a front of it.
pub fn write_all<K: Sink>(sink: &mut K, text: &[u8]) -> Result<(), WriteFailed>
    ensures whole { OnOk result (Appends (K.taken sink.old) (K.taken sink.new) text.now) }
    ensures front { OnErr result (TookFront (K.taken sink.old) (K.taken sink.new) text.now) }
    ensures cause { HasCause (K.faults sink.old) (K.faults sink.new) result }
{
    let mut done = 0;
    'writes: while done < text.len() {
        let count = sink.write(&text[done..])?;
        done += count;
    }
    Ok(())
}
