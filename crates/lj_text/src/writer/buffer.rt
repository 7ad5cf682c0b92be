//! Bytes that are held back on their way to a sink.
ghost use Rattle.std.specs.Prelude.{◌≡◌, ◌≤◌, ◌+◌, ℕ, [], ◌++◌, length, OnOk, OnErr};
ghost use Rattle.lj_text.specs.inner.Writing.{Wrote, Broke};

use crate::sink::{Sink, SinkFault, write_all};
use std::marker::Model;

/// How many bytes are held back at most.
const CAPACITY: usize = 65_536;

/// Bytes that a sink is to take, held back until they are many.
#[derive(Drop)]
pub(crate) struct OutputBuffer {
    bytes: [u8; CAPACITY],
    len: usize,
}

impl Model for OutputBuffer {
    ghost use Rattle.std.specs.Prelude.{◌≤◌, List, ℕ, take};

    ghost Value = { List ℕ };

    ghost view = { λ h. take h.len h.bytes };

    ghost invariant = { λ h. h.len ≤ 65536 };
}

impl OutputBuffer {
    /// No bytes.
    pub(crate) fn new() -> OutputBuffer
        ensures { result ≡ [] }
    {
        OutputBuffer {
            bytes: [0; CAPACITY],
            len: 0,
        }
    }

    /// Gives the bytes that are held to the sink.
    pub(crate) fn flush<W: Sink>(&mut self, sink: &mut W) -> Result<(), SinkFault>
        requires { W.failures sink.old ≡ 0 }

        ensures ok { OnOk result (W.taken sink.new ≡ W.taken sink.old ++ self.old) }
        ensures unfailed { OnOk result (W.failures sink.new ≡ 0) }
        ensures broke { OnErr result (Broke (W.taken sink.old) self.old (W.taken sink.new) []) }
        ensures failed { OnErr result (W.failures sink.new ≡ 1) }
        ensures none { self.new ≡ [] }
    {
        let outcome = write_all(sink, &self.bytes[..self.len]);
        self.len = 0;
        outcome
    }

    /// Holds more bytes, and gives those before them to the sink where there is no room.
    pub(crate) fn append<W: Sink>(&mut self, sink: &mut W, bytes: &[u8]) -> Result<(), SinkFault>
        requires unfailed { W.failures sink.old ≡ 0 }
        requires short { length bytes.now ≤ 64 }

        ensures wrote { OnOk result
            (Wrote (W.taken sink.old) self.old (W.taken sink.new) self.new bytes.now) }
        ensures unfailed { OnOk result (W.failures sink.new ≡ 0) }
        ensures broke { OnErr result
            (Broke (W.taken sink.old) self.old (W.taken sink.new) bytes.now) }
        ensures failed { OnErr result (W.failures sink.new ≡ 1) }
        ensures none { OnErr result (self.new ≡ []) }
    {
        self.reserve_one(sink, bytes.len())?;
        self.keep(bytes);
        Ok(())
    }

    /// Gives what is held to the sink where there is no room for so many bytes behind it.
    fn reserve_one<W: Sink>(&mut self, sink: &mut W, count: usize) -> Result<(), SinkFault>
        requires unfailed { W.failures sink.old ≡ 0 }
        requires short { count ≤ 64 }

        ensures scratch { OnOk result (length self.new + count ≤ 65536) }
        ensures wrote { OnOk result
            (Wrote (W.taken sink.old) self.old (W.taken sink.new) self.new []) }
        ensures unfailed { OnOk result (W.failures sink.new ≡ 0) }
        ensures broke { OnErr result (Broke (W.taken sink.old) self.old (W.taken sink.new) []) }
        ensures failed { OnErr result (W.failures sink.new ≡ 1) }
        ensures none { OnErr result (self.new ≡ []) }
    {
        if count > CAPACITY - self.len {
            return self.flush(sink);
        }
        Ok(())
    }

    /// Holds bytes for which there is room.
    fn keep(&mut self, bytes: &[u8])
        requires { length self.old + length bytes.now ≤ 65536 }
        ensures { self.new ≡ self.old ++ bytes.now }
    {
        let end = self.len + bytes.len();
        self.bytes[self.len..end].copy_from_slice(bytes);
        self.len = end;
    }
}
