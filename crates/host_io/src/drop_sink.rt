//! A sink that drops what it gets.
ghost use Rattle.std.specs.Prelude.{◌≡◌, ◌≤◌, IsOk};
ghost use Rattle.host_io.specs.Sink.{PutEnds};

use crate::{PutError, Sink};

/// A sink that drops each piece, and fails at no put. It tells no bytes.
#[derive(Clone, Copy)]
pub struct DropSink;

impl Sink for DropSink {
    ghost use Rattle.host_io.specs.Real.{drop_state};

    ghost state = { drop_state };

    fn put(&mut self, _piece: &[u8]) -> Result<(), PutError>
        ensures counts { (drop_state self.old).faults ≤ (drop_state self.new).faults }
        ensures ends { PutEnds _piece.now (drop_state self.old) (drop_state self.new) result }
        ensures taken { IsOk result }
    {
        Ok(())
    }
}
