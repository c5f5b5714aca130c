//! A sink over any writer.
ghost use Rattle.std.specs.Prelude.{◌≡◌, ◌<◌, ◌≤◌, length, None, IfErr, OnOk};
ghost use Rattle.std.specs.Io.KnownBytes.{Appends};
ghost use Rattle.host_io.specs.Sink.{PutEnds};
ghost use Rattle.host_io.specs.After.{after_put};

use crate::{PutError, Sink};
use std::io;
use std::io::Write;

/// A sink that writes each piece to a writer, and sees that it is out. It tells no bytes.
#[derive(Drop)]
pub struct StreamSink<W: Write> {
    inner: W,
    faults: u64,
}

impl<W: Write> StreamSink<W> {
    ghost use Rattle.host_io.specs.Real.{stream_state, writer_of};

    /// A sink over the writer.
    pub fn new(inner: W) -> StreamSink<W>
        ensures state { stream_state result ≡ record { bytes = None; faults = 0 } }
        ensures writer { writer_of result ≡ inner }
    {
        StreamSink { inner, faults: 0 }
    }
}

// Writes all of a piece and flushes it. An interrupted write is tried again, as std does, and a write that takes
// nothing is an error.
fn write_out<W: Write>(writer: &mut W, piece: &[u8]) -> io::Result<()>
    ensures { OnOk result (Appends (W.contents writer.old) (W.contents writer.new) piece.now) }
{
    writer.write_all(piece)?;
    writer.flush()
}

impl<W: Write> Sink for StreamSink<W> {
    ghost use Rattle.host_io.specs.Real.{stream_state, writer_of};

    ghost state = { stream_state };

    fn put(&mut self, piece: &[u8]) -> Result<(), PutError>
        requires { 0 < length piece.now }
        ensures counts { (stream_state self.old).faults ≤ (stream_state self.new).faults }
        ensures ends { PutEnds piece.now (stream_state self.old) (stream_state self.new) result }
        ensures state { stream_state self.new ≡ after_put piece.now result (stream_state self.old) }

        // Each error is a failure: a part may be out.
        ensures failed { IfErr result (λ e. e ≡ PutError.Failed) }

        // A writer that knows its bytes has got the piece.
        ensures written { OnOk result (Appends (W.contents (writer_of self.old))
            (W.contents (writer_of self.new)) piece.now) }
    {
        match write_out(&mut self.inner, piece) {
            Ok(()) => Ok(()),
            Err(_) => {
                self.faults = self.faults.saturating_add(1);
                Err(PutError::Failed)
            }
        }
    }
}
