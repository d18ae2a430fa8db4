//! The streams and files of a run in memory, with calls that fail, and the report of a run.

ghost use Rattle.std.specs.Prelude.{◌<◌};

use mob_fan_rows::gates::TwoFlags;
use mob_outside::{Gate, MemFiles, MemSink, MemSource};
use std::alloc::{AllocError, Global};

/// The number of the call that fails, for each stream and for the files, from 1; no call has the
/// number 0. The input is the script or the table.
#[derive(Clone, Copy)]
pub struct Failing {
    pub input: u64,
    pub files: u64,
    pub out: u64,
    pub notes: u64,
}

/// No call fails.
pub const NONE_FAILS: Failing = Failing {
    input: 0,
    files: 0,
    out: 0,
    notes: 0,
};

/// The result of a run.
#[derive(Drop)]
pub struct Report {
    pub status: u8,
    pub out: MemSink,
    pub notes: MemSink,
}

/// Whether a run had this result.
pub fn gave(seen: &Report, status: u8, answer: &[u8], note: &[u8]) -> bool {
    seen.status == status && seen.out.taken() == answer && seen.notes.taken() == note
}

/// The gate of a run: open, or one at which two pieces look for each other.
#[derive(Drop)]
pub struct Watch<'a> {
    pub flags: Option<&'a TwoFlags>,
}

impl<'a> Gate for Watch<'a> {
    fn enter(&self, piece: usize) {
        if let Some(flags) = self.flags {
            flags.enter(piece);
        }
    }
}

/// The arguments, in the form that a run takes.
pub fn listed(alloc: Global, words: &[&str]) -> Result<Vec<String>, AllocError> {
    let mut list = Vec::new(alloc);
    for word in words {
        list.push(String::from_str(alloc, word)?)?;
    }
    Ok(list)
}

// The numbers of the calls that fail.
fn calls(alloc: Global, call: u64) -> Result<Vec<u64>, AllocError> {
    let mut calls = Vec::new(alloc);
    calls.push(call)?;
    Ok(calls)
}

/// A source of this text, whose calls move at most `step` bytes.
pub fn source(alloc: Global, text: &str, call: u64, step: usize) -> Result<MemSource, AllocError>
    requires moves { 0 < step }
{
    let failing = calls(alloc, call)?;
    let bytes = text.as_bytes().to_vec(alloc)?;
    Ok(MemSource::new(bytes, failing, step))
}

/// An empty sink, whose calls move at most `step` bytes.
pub fn sink(alloc: Global, call: u64, step: usize) -> Result<MemSink, AllocError>
    requires moves { 0 < step }
{
    let failing = calls(alloc, call)?;
    Ok(MemSink::new(alloc, failing, step))
}

// A file: its name and its bytes.
fn file(alloc: Global, name: &str, bytes: &[u8]) -> Result<(String, Vec<u8>), AllocError> {
    let name = String::from_str(alloc, name)?;
    Ok((name, bytes.to_vec(alloc)?))
}

// At most one file, with its name and its bytes.
fn contents(
    alloc: Global,
    named: Option<(&str, &[u8])>,
) -> Result<Vec<(String, Vec<u8>)>, AllocError> {
    let mut contents = Vec::new(alloc);
    if let Some((name, bytes)) = named {
        contents.push(file(alloc, name, bytes)?)?;
    }
    Ok(contents)
}

/// The files of a run: none, or one with its name and its bytes. A call moves at most `step` bytes.
pub fn files(
    alloc: Global,
    named: Option<(&str, &[u8])>,
    call: u64,
    step: usize,
) -> Result<MemFiles, AllocError>
    requires moves { 0 < step }
{
    let failing = calls(alloc, call)?;
    let contents = contents(alloc, named)?;
    Ok(MemFiles::new(alloc, contents, failing, step))
}
