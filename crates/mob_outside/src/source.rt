//! The sources that bytes are read from.
ghost use Rattle.std.specs.Prelude.{◌≡◌, ◌↔◌, ◌<◌, ◌≤◌, ◌++◌, List, ℕ, Option, Some, [], Contains, IsErr, IfOk, OnErr, take, drop, length};
ghost use Rattle.std.specs.Io.{ReadsAtMost};
ghost use Rattle.std.specs.Io.KnownBytes.{ReadConsumes};
ghost use Rattle.mob_outside.specs.Faults.{CountsFaults, HasCause, next_count};
ghost use Rattle.mob_outside.specs.Memory.{SourceState, new_source};
ghost use Rattle.mob_outside.specs.Told.{Stream};

use crate::Failed;
use std::io::Read;
use std::marker::Model;

/// A source of bytes.
pub trait Source {
    /// The bytes left, if visible.
    ghost left: { Self → Option (List ℕ) };

    /// The number of failed calls. It never falls.
    ghost faults: { Self → ℕ };

    /// Moves the next bytes to the front of `into`, and returns their number. It is 0 only at the
    /// end. It fails only if the count of faults rose.
    fn take(&mut self, into: &mut [u8]) -> Result<usize, Failed>
        requires room { 0 < length into.old }
        ensures bound { ReadsAtMost result into.new }
        ensures bytes { ReadConsumes (left self.old) (left self.new) result into.new }
        ensures cause { HasCause (faults self.old) (faults self.new) result };
}

// Copies at most `most` bytes from the front of `rest` to the front of `into`, and returns their
// number.
pub(crate) fn give(rest: &[u8], most: usize, into: &mut [u8]) -> usize
    requires some { 0 < most }
    requires room { 0 < length into.old }
    ensures within { result ≤ length rest.now }
    ensures bound { result ≤ length into.new }
    ensures at_most { result ≤ most }
    ensures moved { rest.now ≡ take result into.new ++ drop result rest.now }
    ensures end { result ≡ 0 → rest.now ≡ [] }
{
    let count = rest.len().min(most).min(into.len());
    into[..count].copy_from_slice(&rest[..count]);
    count
}

/// Bytes in memory, with failing and short calls as set up. Contracts see it as a `SourceState`.
#[derive(Drop)]
pub struct MemSource {
    bytes: Vec<u8>,
    at: usize,
    failing: Vec<u64>,
    step: usize,
    calls: u64,
    faults: u64,
}

impl Model for MemSource {
    ghost Value = { SourceState };

    ghost view = { λ s. record {
      left = drop s.at s.bytes.items;
      failing = s.failing.items;
      step = s.step;
      calls = s.calls;
      faults = s.faults;
    } };

    ghost invariant = { λ s. (0 < s.step) × (s.at ≤ length s.bytes.items) };
}

impl MemSource {
    /// A source of these bytes. The calls whose numbers are in `failing`, counted from 1, fail.
    /// Every other call returns at most `step` bytes.
    pub fn new(bytes: Vec<u8>, failing: Vec<u64>, step: usize) -> MemSource
        requires moves { 0 < step }
        ensures starts { result ≡ new_source bytes.items failing.items step }
    {
        MemSource {
            bytes,
            at: 0,
            failing,
            step,
            calls: 0,
            faults: 0,
        }
    }
}

impl Source for MemSource {
    ghost left = { λ s. Some s.left };

    ghost faults = { λ s. s.faults };

    /// As for every source; fails exactly at the calls set up to fail.
    #[tactic(auto, using(crate::proofs::Rest::drop_rest))]
    fn take(&mut self, into: &mut [u8]) -> Result<usize, Failed>
        requires room { 0 < length into.old }
        ensures bound { ReadsAtMost result into.new }
        ensures bytes { ReadConsumes (Some self.old.left) (Some self.new.left) result into.new }
        ensures cause { HasCause self.old.faults self.new.faults result }
        ensures fails { IsErr result ↔ Contains self.old.failing (next_count self.old.calls) }
        ensures step { IfOk result (λ n. n ≤ self.old.step) }
        ensures counts { self.new.calls ≡ next_count self.old.calls }
        ensures gave { IfOk result (λ n. self.new ≡ record self.old { left = drop n self.old.left; calls = next_count self.old.calls }) }
        ensures failed { OnErr result (self.new ≡ record self.old { calls = next_count self.old.calls; faults = next_count self.old.faults }) }
    {
        self.calls = self.calls.saturating_add(1);
        if self.failing.contains(&self.calls) {
            self.faults = self.faults.saturating_add(1);
            return Err(Failed);
        }
        let count = give(&self.bytes[self.at..], self.step, into);
        self.at += count;
        Ok(count)
    }
}

/// Bytes in memory whose calls never fail. Contracts see it as the bytes left.
#[derive(Drop)]
pub struct SteadySource {
    bytes: Vec<u8>,
    at: usize,
}

impl Model for SteadySource {
    ghost Value = { List ℕ };

    ghost view = { λ s. drop s.at s.bytes.items };

    ghost invariant = { λ s. s.at ≤ length s.bytes.items };
}

impl SteadySource {
    /// A source of these bytes, whose calls never fail.
    pub fn new(bytes: Vec<u8>) -> SteadySource
        ensures starts { result ≡ bytes.items }
    {
        SteadySource { bytes, at: 0 }
    }
}

impl Source for SteadySource {
    ghost left = { λ s. Some s };

    ghost faults = { λ _. 0 };

    #[tactic(auto, using(crate::proofs::Rest::drop_rest))]
    fn take(&mut self, into: &mut [u8]) -> Result<usize, Failed> {
        let count = give(&self.bytes[self.at..], into.len(), into);
        self.at += count;
        Ok(count)
    }
}

/// The bytes of a reader, such as standard input. The bytes left are visible if the reader shows
/// them. Contracts see it as a `Stream`.
#[derive(Drop)]
pub struct StdSource<R: Read + Drop> {
    reader: R,
    faults: u64,
}

impl<R: Read + Drop> Model for StdSource<R> {
    ghost Value = { Stream };

    ghost view = { λ s. record { told = R.remaining s.reader; faults = s.faults } };
}

impl<R: Read + Drop> StdSource<R> {
    /// A source over this reader, with no fault so far.
    pub fn new(reader: R) -> StdSource<R>
        ensures starts { result ≡ record { told = R.remaining reader; faults = 0 } }
    {
        StdSource { reader, faults: 0 }
    }
}

impl<R: Read + Drop> Source for StdSource<R> {
    ghost left = { λ s. s.told };

    ghost faults = { λ s. s.faults };

    /// As for every source; counts exactly the calls that failed.
    fn take(&mut self, into: &mut [u8]) -> Result<usize, Failed>
        requires room { 0 < length into.old }
        ensures bound { ReadsAtMost result into.new }
        ensures bytes { ReadConsumes self.old.told self.new.told result into.new }
        ensures cause { HasCause self.old.faults self.new.faults result }
        ensures counts { CountsFaults self.old.faults self.new.faults result }
    {
        match self.reader.read(into) {
            Ok(count) => Ok(count),
            Err(_) => {
                self.faults = self.faults.saturating_add(1);
                Err(Failed)
            }
        }
    }
}
