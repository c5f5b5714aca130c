//! A sink in memory, which can be made to fail at chosen puts.
ghost use Rattle.std.specs.Prelude.{◌≡◌, ◌-◌, ◌/◌, ◌<◌, ◌≤◌, ◌++◌, ◌∷◌, ◌⊎◌, [], length, Some, IfOk, OnOk, OnErr, IsErrOf};
ghost use Rattle.host_io.specs.Sink.{PutEnds};
ghost use Rattle.host_io.specs.Faults.{counted};
ghost use Rattle.host_io.specs.After.{after_put};

use crate::{PutError, Sink};
use std::alloc::{AllocError, Global};

/// The bytes put so far. Puts are numbered from 0; all from number 2^64 - 1 on have that number.
#[derive(Drop)]
pub struct MemorySink {
    bytes: Vec<u8>,
    failing_calls: Vec<u64>,
    calls: u64,
    faults: u64,
}

impl MemorySink {
    ghost use Rattle.host_io.specs.Memory.{sink_state, next_put, failing_puts};

    /// A sink that has got nothing, and that fails at no put.
    pub fn new(alloc: Global) -> Result<MemorySink, AllocError>
        ensures state { IfOk result (λ sink. sink_state sink
            ≡ record { bytes = Some []; faults = 0 }) }
        ensures next { IfOk result (λ sink. next_put sink ≡ 0) }
        ensures failing { IfOk result (λ sink. failing_puts sink ≡ []) }
    {
        Ok(MemorySink {
            bytes: Vec::new(alloc),
            failing_calls: Vec::new(alloc),
            calls: 0,
            faults: 0,
        })
    }

    /// Makes the put with this number, counted from 0, fail.
    pub fn fail_at(&mut self, call: u64) -> Result<(), AllocError>
        ensures state { sink_state self.new ≡ sink_state self.old }
        ensures next { next_put self.new ≡ next_put self.old }
        ensures ok { OnOk result (failing_puts self.new ≡ failing_puts self.old ++ call ∷ []) }
        ensures err { OnErr result (failing_puts self.new ≡ failing_puts self.old) }
    {
        self.failing_calls.push(call)?;
        Ok(())
    }

    /// The bytes put so far.
    pub fn bytes(&self) -> &[u8]
        ensures { (sink_state self.now).bytes ≡ Some result.now }
    {
        &self.bytes
    }
}

impl Sink for MemorySink {
    ghost use Rattle.host_io.specs.Memory.{sink_state, next_put, failing_puts, PutIsToFail};

    ghost state = { sink_state };

    fn put(&mut self, piece: &[u8]) -> Result<(), PutError>
        requires { 0 < length piece.now }
        ensures counts { (sink_state self.old).faults ≤ (sink_state self.new).faults }
        ensures ends { PutEnds piece.now (sink_state self.old) (sink_state self.new) result }

        ensures state { sink_state self.new ≡ after_put piece.now result (sink_state self.old) }

        // It fails exactly where the put is made to fail.
        ensures fails { IsErrOf result PutError.Failed → PutIsToFail self.old }
        ensures is_to_fail { PutIsToFail self.old
            → IsErrOf result PutError.Failed ⊎ IsErrOf result PutError.Memory }
        ensures next { next_put self.new ≡ counted (next_put self.old) }
        ensures failing { failing_puts self.new ≡ failing_puts self.old }
    {
        let fails = self.failing_calls.contains(&self.calls);
        self.calls = self.calls.saturating_add(1);
        if fails {
            self.bytes.extend_from_slice(&piece[..piece.len() / 2])?;
            self.faults = self.faults.saturating_add(1);
            return Err(PutError::Failed);
        }
        self.bytes.extend_from_slice(piece)?;
        Ok(())
    }
}
