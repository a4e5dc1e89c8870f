//! Whole texts into a sink.
ghost use Rattle.std.specs.Prelude.{◌≡◌, OnOk};
ghost use Rattle.std.specs.Io.KnownBytes.{append_known};
ghost use Rattle.vast_io.specs.Causes.{HasCause};
ghost use Rattle.vast_io.specs.Told.{WritesPart};

use crate::outside::{Failed, Sink};

/// Writes the whole text, in as many calls as the sink needs. After a failure the first bytes of it were written, and
/// the sink's count rose.
pub fn write_all<K: Sink>(sink: &mut K, text: &[u8]) -> Result<(), Failed>
    ensures whole { OnOk result (K.written sink.new ≡ append_known (K.written sink.old) text.now) }
    ensures part { WritesPart (K.written sink.old) (K.written sink.new) text.now }
    ensures cause { HasCause (K.faults sink.old) (K.faults sink.new) result }
{
    let mut rest = text;
    while !rest.is_empty() {
        let count = sink.write(rest)?;
        let (_, after) = rest.split_at(count);
        rest = after;
    }
    Ok(())
}
