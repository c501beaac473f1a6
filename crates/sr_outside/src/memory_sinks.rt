ghost use Rattle.std.specs.Prelude.{◌≡◌, ◌≤◌, ◌↔◌, [], Some, Contains, OnOk, OnErr, IsErrOf};
ghost use Rattle.std.specs.Io.KnownBytes.{Appends};
ghost use Rattle.sr_outside.specs.Counts.{Rose, Raised};
ghost use Rattle.sr_outside.specs.Writing.{AppendsPart};
ghost use Rattle.sr_outside.specs.Fakes.{failing_writes, writes_of};

use crate::{Sink, WriteRefusal};
use std::alloc::Global;

/// Bytes in memory, with the numbers of the calls at which the sink fails, for tests of hosts.
#[derive(Drop)]
pub struct VecSink {
    bytes: Vec<u8>,
    failing: Vec<u64>,
    calls: u64,
    faults: u64,
}

impl VecSink {
    /// An empty sink, which fails at the writes with these numbers, counted from 1. It appends nothing then.
    pub fn of(alloc: Global, failing: Vec<u64>) -> VecSink
        ensures empty { ⟦<VecSink as Sink>⟧.written result ≡ Some [] }
        ensures failing { failing_writes result ≡ failing.items }
        ensures untried { writes_of result ≡ 0 }
    {
        VecSink {
            bytes: Vec::new(alloc),
            failing,
            calls: 0,
            faults: 0,
        }
    }

    /// What was written.
    pub fn bytes(&self) -> &[u8]
        ensures { Some result.now ≡ ⟦<VecSink as Sink>⟧.written self.now }
    {
        &self.bytes
    }
}

impl Sink for VecSink {
    ghost written = { λ sink. Some sink.bytes.items };

    ghost faults = { λ sink. sink.faults };

    fn write_all(&mut self, bytes: &[u8]) -> Result<(), WriteRefusal>
        ensures ok { OnOk result (Appends (⟦<VecSink as Sink>⟧.written self.old) (⟦<VecSink as Sink>⟧.written self.new) bytes.now) }
        ensures faults { ⟦<VecSink as Sink>⟧.faults self.old ≤ ⟦<VecSink as Sink>⟧.faults self.new }
        ensures failed { IsErrOf result WriteRefusal.Failed → Rose (⟦<VecSink as Sink>⟧.faults self.old) (⟦<VecSink as Sink>⟧.faults self.new) }
        ensures part { IsErrOf result WriteRefusal.Failed → AppendsPart (⟦<VecSink as Sink>⟧.written self.old) (⟦<VecSink as Sink>⟧.written self.new) bytes.now }
        ensures memory { IsErrOf result WriteRefusal.Memory → ⟦<VecSink as Sink>⟧.written self.new ≡ ⟦<VecSink as Sink>⟧.written self.old }
        ensures memory_faults { IsErrOf result WriteRefusal.Memory → ⟦<VecSink as Sink>⟧.faults self.new ≡ ⟦<VecSink as Sink>⟧.faults self.old }
        ensures counted { Raised (writes_of self.old) (writes_of self.new) }
        ensures fails_as_listed { IsErrOf result WriteRefusal.Failed ↔ Contains (failing_writes self.old) (writes_of self.new) }
        ensures whole_or_nothing { OnErr result (⟦<VecSink as Sink>⟧.written self.new ≡ ⟦<VecSink as Sink>⟧.written self.old) }
    {
        self.calls = self.calls.saturating_add(1);
        if self.failing.contains(&self.calls) {
            self.faults = self.faults.saturating_add(1);
            return Err(WriteRefusal::Failed);
        }
        match self.bytes.extend_from_slice(bytes) {
            Ok(()) => Ok(()),
            Err(_) => Err(WriteRefusal::Memory),
        }
    }
}

/// Bytes in memory. The sink never fails.
#[derive(Drop)]
pub struct SureSink {
    bytes: Vec<u8>,
}

impl SureSink {
    /// An empty sink.
    pub fn new(alloc: Global) -> SureSink
        ensures empty { ⟦<SureSink as Sink>⟧.written result ≡ Some [] }
    {
        SureSink {
            bytes: Vec::new(alloc),
        }
    }

    /// What was written.
    pub fn bytes(&self) -> &[u8]
        ensures { Some result.now ≡ ⟦<SureSink as Sink>⟧.written self.now }
    {
        &self.bytes
    }
}

impl Sink for SureSink {
    ghost written = { λ sink. Some sink.bytes.items };

    ghost faults = { λ _. 0 };

    fn write_all(&mut self, bytes: &[u8]) -> Result<(), WriteRefusal> {
        match self.bytes.extend_from_slice(bytes) {
            Ok(()) => Ok(()),
            Err(_) => Err(WriteRefusal::Memory),
        }
    }
}
