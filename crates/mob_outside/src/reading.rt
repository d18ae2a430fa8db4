//! Reads whole texts through the calls of a source, or of a file.
ghost use Rattle.std.specs.Prelude.{◌≡◌, ◌⊎◌, ◌<◌, ◌≤◌, ◌^◌, Bool, Err, IfErr, IfOk, IfSome, IsErrOf, List, None, OnOk, Option, length, true, ℕ};
ghost use Rattle.std.specs.Io.{ReadsAtMost};
ghost use Rattle.std.specs.Io.KnownBytes.{ReadConsumes};
ghost use Rattle.mob_outside.specs.Faults.{HasCause, Rose};
ghost use Rattle.mob_outside.specs.Fronts.{IsFront, IsLeftOf};
ghost use Rattle.mob_outside.specs.Streams.{ReadsPart, ReadsTo};
ghost use Rattle.mob_outside.specs.Told.{AsksFor, Contents, KeepsFiles, KeepsNames, MayAskFor};
ghost use Rattle.mob_outside.specs.declared.reading.FileEnd.TheVariants.{NoMemory, NotOpened};
ghost use Rattle.mob_outside.specs.declared.reading.ReadEnd.TheVariants.{Fault};

use crate::{Failed, Files, Source};
use std::alloc::Global;
use std::marker::PhantomData;

/// The reason why a text was not read.
#[derive(Clone, Copy, Debug, PartialEq, Eq)]
pub enum ReadEnd {
    /// A call of the source failed.
    Fault,
    /// An allocation failed.
    NoMemory,
}

/// The reason why a file was not read.
#[derive(Clone, Copy, Debug, PartialEq, Eq)]
pub enum FileEnd {
    /// It could not be opened.
    NotOpened,
    /// It was opened, and a call failed then.
    Fault,
    /// An allocation failed.
    NoMemory,
}

// The most bytes requested in one call.
const CHUNK: usize = 4096;

// A way to take bytes, call by call, until a call fails.
pub trait Taking {
    // The place that they come from.
    type From;

    // The bytes left, if visible.
    ghost left: { Self.From → Option (List ℕ) };

    // The files, if any and visible.
    ghost files: { Self.From → Option Contents };

    // The names requested, if any and visible.
    ghost asked: { Self.From → Option (List (List ℕ)) };

    // Bytes can be taken.
    ghost is_ready: { Self.From → Bool };

    // The number of failed calls.
    ghost faults: { Self.From → ℕ };

    // Moves the next bytes to the front of `into`, and returns their number. It is 0 only at the
    // end.
    fn take_from(from: &mut Self::From, into: &mut [u8]) -> Result<usize, Failed>
        requires ready { is_ready from.old ≡ true }
        requires room { 0 < length into.old }
        ensures files { KeepsFiles (files from.old) (files from.new) }
        ensures asked { KeepsNames (asked from.old) (asked from.new) }
        ensures bound { ReadsAtMost result into.new }
        ensures bytes { ReadConsumes (left from.old) (left from.new) result into.new }
        ensures ready { OnOk result (is_ready from.new ≡ true) }
        ensures cause { HasCause (faults from.old) (faults from.new) result };
}

// Takes bytes from a source.
pub struct OfSource<S> {
    _source: PhantomData<S>,
}

impl<S: Source> Taking for OfSource<S> {
    type From = S;

    ghost left = { λ s. S.left s };

    ghost files = { λ _. None };

    ghost asked = { λ _. None };

    ghost is_ready = { λ _. true };

    ghost faults = { λ s. S.faults s };

    fn take_from(from: &mut S, into: &mut [u8]) -> Result<usize, Failed> {
        from.take(into)
    }
}

// Takes bytes from the open file.
pub struct OfOpened<F> {
    _files: PhantomData<F>,
}

impl<F: Files> Taking for OfOpened<F> {
    type From = F;

    ghost left = { λ f. F.left f };

    ghost files = { λ f. F.files f };

    ghost asked = { λ f. F.asked f };

    ghost is_ready = { λ f. F.is_ready f };

    ghost faults = { λ f. F.faults f };

    fn take_from(from: &mut F, into: &mut [u8]) -> Result<usize, Failed> {
        from.take(into)
    }
}

// Reads to the end, or stops one byte past the limit.
fn read_through<T: Taking>(
    alloc: Global,
    from: &mut T::From,
    limit: usize,
) -> Result<Vec<u8>, ReadEnd>
    requires small { limit < 2 ^ 32 }
    requires ready { T.is_ready from.old ≡ true }
    ensures bytes { IfOk result (λ v. ReadsTo limit (T.left from.old) (T.left from.new) v.items) }
    ensures part { ReadsPart limit (T.left from.old) (T.left from.new) }
    ensures files { KeepsFiles (T.files from.old) (T.files from.new) }
    ensures asked { KeepsNames (T.asked from.old) (T.asked from.new) }
    ensures later { T.faults from.old ≤ T.faults from.new }
    ensures cause { IsErrOf result Fault → Rose (T.faults from.old) (T.faults from.new) }
{
    let mut bytes = Vec::new(alloc);
    let mut chunk = [0u8; CHUNK];
    while bytes.len() <= limit {
        let room = (limit + 1 - bytes.len()).min(CHUNK);
        let count = match T::take_from(from, &mut chunk[..room]) {
            Ok(count) => count,
            Err(_) => return Err(ReadEnd::Fault),
        };
        if count == 0 {
            return Ok(bytes);
        }
        if bytes.extend_from_slice(&chunk[..count]).is_err() {
            return Err(ReadEnd::NoMemory);
        }
    }
    Ok(bytes)
}

/// Reads to the end, or stops one byte past the limit. `Fault` comes only if the source failed.
/// However it ends, at most one byte past the limit is taken.
pub fn read_to<S: Source>(alloc: Global, source: &mut S, limit: usize) -> Result<Vec<u8>, ReadEnd>
    requires small { limit < 2 ^ 32 }
    ensures bytes { IfOk result (λ v. ReadsTo limit (S.left source.old) (S.left source.new) v.items) }
    ensures part { ReadsPart limit (S.left source.old) (S.left source.new) }
    ensures later { S.faults source.old ≤ S.faults source.new }
    ensures cause { IsErrOf result Fault → Rose (S.faults source.old) (S.faults source.new) }
{
    read_through::<OfSource<S>>(alloc, source, limit)
}

/// Reads the open file to its end, or stops one byte past the limit. `Fault` comes only if the
/// files failed. However it ends, at most one byte past the limit is taken.
pub fn read_opened<F: Files>(alloc: Global, files: &mut F, limit: usize) -> Result<Vec<u8>, ReadEnd>
    requires small { limit < 2 ^ 32 }
    requires ready { F.is_ready files.old ≡ true }
    ensures bytes { IfOk result (λ v. ReadsTo limit (F.left files.old) (F.left files.new) v.items) }
    ensures part { ReadsPart limit (F.left files.old) (F.left files.new) }
    ensures files { KeepsFiles (F.files files.old) (F.files files.new) }
    ensures asked { KeepsNames (F.asked files.old) (F.asked files.new) }
    ensures later { F.faults files.old ≤ F.faults files.new }
    ensures cause { IsErrOf result Fault → Rose (F.faults files.old) (F.faults files.new) }
{
    read_through::<OfOpened<F>>(alloc, files, limit)
}

/// The bytes of the file with this name, or those up to one byte past the limit if it is longer. No
/// more are read of it, however the call ends. `NotOpened` and `Fault` come only if the files
/// failed; else the error is a failed allocation.
pub fn read_file<F: Files>(
    alloc: Global,
    files: &mut F,
    name: &str,
    limit: usize,
) -> Result<Vec<u8>, FileEnd>
    requires small { limit < 2 ^ 32 }
    ensures bytes { IfOk result (λ v. IfSome (F.files files.old) (λ m. IsFront limit name.now m v.items)) }
    ensures part { (result ≡ Err NotOpened) ⊎ IfSome (F.files files.old) (λ m. IsLeftOf limit name.now m (F.left files.new)) }
    ensures fault { IfErr result (λ e. (e ≡ NoMemory) ⊎ Rose (F.faults files.old) (F.faults files.new)) }
    ensures files { KeepsFiles (F.files files.old) (F.files files.new) }
    ensures asked { IfOk result (λ _. AsksFor name.now (F.asked files.old) (F.asked files.new)) }
    ensures may_ask { MayAskFor name.now (F.asked files.old) (F.asked files.new) }
    ensures later { F.faults files.old ≤ F.faults files.new }
{
    if files.open(name).is_err() {
        return Err(FileEnd::NotOpened);
    }
    match read_opened(alloc, files, limit) {
        Ok(bytes) => Ok(bytes),
        Err(ReadEnd::Fault) => Err(FileEnd::Fault),
        Err(ReadEnd::NoMemory) => Err(FileEnd::NoMemory),
    }
}
