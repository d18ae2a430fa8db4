//! The sinks that bytes are written to.
ghost use Rattle.std.specs.Prelude.{◌≡◌, ◌<◌, ◌≤◌, ◌++◌, List, ℕ, Option, Some, Contains, IsErr, IfOk, OnErr, take, length};
ghost use Rattle.std.specs.Io.KnownBytes.{WriteAppends};
ghost use Rattle.mob_outside.specs.Faults.{CountsFaults, HasCause, next_count};
ghost use Rattle.mob_outside.specs.Memory.{SinkState, new_sink};
ghost use Rattle.mob_outside.specs.Told.{Stream};

use crate::Failed;
use std::alloc::Global;
use std::io::Write;
use std::marker::Model;

/// A sink of bytes.
pub trait Sink {
    /// The bytes that it took, if visible.
    ghost held: { Self → Option (List ℕ) };

    /// The number of failed calls. It never falls.
    ghost faults: { Self → ℕ };

    /// Puts some bytes from the front of `from`, and returns their number. Putting none is a fault.
    fn put(&mut self, from: &[u8]) -> Result<usize, Failed>
        requires some { 0 < length from.now }
        ensures moves { IfOk result (λ n. 0 < n) }
        ensures bound { IfOk result (λ n. n ≤ length from.now) }
        ensures bytes { WriteAppends (held self.old) (held self.new) result from.now }
        ensures cause { HasCause (faults self.old) (faults self.new) result };
}

/// A sink in memory, with failing and short calls as set up. Contracts see it as a `SinkState`.
#[derive(Drop)]
pub struct MemSink {
    bytes: Vec<u8>,
    failing: Vec<u64>,
    step: usize,
    calls: u64,
    faults: u64,
}

impl Model for MemSink {
    ghost Value = { SinkState };

    ghost view = { λ s. record {
      held = s.bytes.items;
      failing = s.failing.items;
      step = s.step;
      calls = s.calls;
      faults = s.faults;
    } };

    ghost invariant = { λ s. 0 < s.step };
}

impl MemSink {
    /// An empty sink. The calls whose numbers are in `failing`, counted from 1, fail. Every other
    /// call takes at most `step` bytes.
    pub fn new(alloc: Global, failing: Vec<u64>, step: usize) -> MemSink
        requires moves { 0 < step }
        ensures starts { result ≡ new_sink failing.items step }
    {
        MemSink {
            bytes: Vec::new(alloc),
            failing,
            step,
            calls: 0,
            faults: 0,
        }
    }

    /// The bytes that it took.
    pub fn taken(&self) -> &[u8]
        ensures held { result.now ≡ self.now.held }
    {
        &self.bytes
    }
}

impl Sink for MemSink {
    ghost held = { λ s. Some s.held };

    ghost faults = { λ s. s.faults };

    /// As for every sink; fails at the calls set up to fail, and for a failed allocation.
    fn put(&mut self, from: &[u8]) -> Result<usize, Failed>
        requires some { 0 < length from.now }
        ensures moves { IfOk result (λ n. 0 < n) }
        ensures bound { IfOk result (λ n. n ≤ length from.now) }
        ensures bytes { WriteAppends (Some self.old.held) (Some self.new.held) result from.now }
        ensures cause { HasCause self.old.faults self.new.faults result }
        ensures fails { Contains self.old.failing (next_count self.old.calls) → IsErr result }
        ensures step { IfOk result (λ n. n ≤ self.old.step) }
        ensures counts { self.new.calls ≡ next_count self.old.calls }
        ensures took { IfOk result (λ n. self.new ≡ record self.old { held = self.old.held ++ take n from.now; calls = next_count self.old.calls }) }
        ensures failed { OnErr result (self.new ≡ record self.old { calls = next_count self.old.calls; faults = next_count self.old.faults }) }
    {
        self.calls = self.calls.saturating_add(1);
        let count = from.len().min(self.step);
        if self.failing.contains(&self.calls)
            || self.bytes.extend_from_slice(&from[..count]).is_err()
        {
            self.faults = self.faults.saturating_add(1);
            return Err(Failed);
        }
        Ok(count)
    }
}

/// A writer, such as standard output. The bytes that it took are visible if the writer shows them.
/// Contracts see it as a `Stream`.
#[derive(Drop)]
pub struct StdSink<W: Write + Drop> {
    writer: W,
    faults: u64,
}

impl<W: Write + Drop> Model for StdSink<W> {
    ghost Value = { Stream };

    ghost view = { λ s. record { told = W.contents s.writer; faults = s.faults } };
}

impl<W: Write + Drop> StdSink<W> {
    /// A sink over this writer, with no fault so far.
    pub fn new(writer: W) -> StdSink<W>
        ensures starts { result ≡ record { told = W.contents writer; faults = 0 } }
    {
        StdSink { writer, faults: 0 }
    }
}

impl<W: Write + Drop> Sink for StdSink<W> {
    ghost held = { λ s. s.told };

    ghost faults = { λ s. s.faults };

    /// As for every sink; counts exactly the calls that failed.
    fn put(&mut self, from: &[u8]) -> Result<usize, Failed>
        requires some { 0 < length from.now }
        ensures moves { IfOk result (λ n. 0 < n) }
        ensures bound { IfOk result (λ n. n ≤ length from.now) }
        ensures bytes { WriteAppends self.old.told self.new.told result from.now }
        ensures cause { HasCause self.old.faults self.new.faults result }
        ensures counts { CountsFaults self.old.faults self.new.faults result }
    {
        match self.writer.write(from) {
            Ok(count) if 0 < count => Ok(count),
            _ => {
                self.faults = self.faults.saturating_add(1);
                Err(Failed)
            }
        }
    }
}
