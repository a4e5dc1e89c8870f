//! Texts that are gathered for a sink.
ghost use Rattle.std.specs.Prelude.{◌≡◌, ◌<◌, [], length, IfOk, OnOk};
ghost use Rattle.std.specs.Io.KnownBytes.{append_known};
ghost use Rattle.vast_io.specs.Causes.{HasCause};
ghost use Rattle.vast_io.specs.Told.{WritesPart};
ghost use Rattle.input_report.specs.Writing.{Sends};

use std::alloc::{AllocError, Global};
use vast_io::{Failed, Sink, write_all};
use vast_value::Bytes;

/// A buffer with as many bytes is written.
const FULL: usize = 65_536;

/// The memory taken at first: a full buffer and a row.
const ROOM: usize = 2 * FULL;

/// What was told and is not written yet.
#[derive(Drop)]
pub struct Buffer {
    pub text: Bytes,
}

impl Buffer {
    /// Nothing.
    pub fn new(alloc: Global) -> Result<Self, AllocError>
        ensures { IfOk result (λ buffer. buffer.text ≡ []) }
    {
        let text = Bytes::with_capacity(alloc, ROOM)?;
        Ok(Buffer { text })
    }

    /// Writes all where 65,536 bytes or more are there, and nothing else. What the sink got and what is left are
    /// together what was there.
    pub fn write_full<K: Sink>(&mut self, sink: &mut K) -> Result<(), Failed>
        ensures sends { OnOk result (Sends self.old.text self.new.text (K.written sink.old) (K.written sink.new)) }
        ensures few { OnOk result (length self.new.text < 65536) }
        ensures part { WritesPart (K.written sink.old) (K.written sink.new) self.old.text }
        ensures cause { HasCause (K.faults sink.old) (K.faults sink.new) result }
    {
        if self.text.as_slice().len() < FULL {
            return Ok(());
        }
        self.write(sink)
    }

    /// Writes all, and keeps the memory.
    pub fn write<K: Sink>(&mut self, sink: &mut K) -> Result<(), Failed>
        ensures whole { OnOk result (K.written sink.new ≡ append_known (K.written sink.old) self.old.text) }
        ensures sends { OnOk result (Sends self.old.text self.new.text (K.written sink.old) (K.written sink.new)) }
        ensures few { OnOk result (length self.new.text < 65536) }
        ensures part { WritesPart (K.written sink.old) (K.written sink.new) self.old.text }
        ensures cause { HasCause (K.faults sink.old) (K.faults sink.new) result }
    {
        write_all(sink, self.text.as_slice())?;
        self.text.truncate(0);
        Ok(())
    }
}
