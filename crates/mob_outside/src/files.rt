//! Files by name.
ghost use Rattle.std.specs.Prelude.{◌≡◌, ◌↔◌, ◌⊎◌, ◌<◌, ◌≤◌, ◌∷◌, ◌++◌, ◌&&◌, List, ℕ, Bool, true, false, Option, [], Some, None, Contains, IsErr, IfOk, OnOk, OnErr, IfSome, IfNone, map, drop, length, is_some, string_bytes, option_map};
ghost use Rattle.std.specs.Result.{is_ok};
ghost use Rattle.std.specs.Io.{ReadsAtMost};
ghost use Rattle.std.specs.Io.KnownBytes.{ReadConsumes};
ghost use Rattle.mob_outside.specs.Faults.{CountsFaults, HasCause, next_count};
ghost use Rattle.mob_outside.specs.Memory.{FilesState, new_files};
ghost use Rattle.mob_outside.specs.Told.{AsksFor, Contents, KeepsFiles, KeepsNames, MayAskFor, Opens, Folder, entry, file_of, left_of};

use crate::Failed;
use crate::source::give;
use std::alloc::Global;
use std::fs;
use std::io::Read;
use std::marker::Model;
use std::rt::Files as Disk;

/// Files by name. At first none is open.
pub trait Files {
    /// The files, if visible. No call changes them.
    ghost files: { Self → Option Contents };

    /// The names requested, in order, if visible.
    ghost asked: { Self → Option (List (List ℕ)) };

    /// The bytes that the open file has left, if visible.
    ghost left: { Self → Option (List ℕ) };

    /// A file is open, and no call has failed since.
    ghost is_ready: { Self → Bool };

    /// The number of failed calls. It never falls.
    ghost faults: { Self → ℕ };

    /// Opens a file at its start. A name without a file is a fault. After a fault nothing can be
    /// taken until a file is opened.
    fn open(&mut self, name: &str) -> Result<(), Failed>
        ensures files { KeepsFiles (files self.old) (files self.new) }
        ensures asked { OnOk result (AsksFor name.now (asked self.old) (asked self.new)) }
        ensures refused { OnErr result (MayAskFor name.now (asked self.old) (asked self.new)) }
        ensures opens { OnOk result (Opens name.now (files self.old) (left self.new)) }
        ensures ready { is_ready self.new ≡ is_ok result }
        ensures cause { HasCause (faults self.old) (faults self.new) result };

    /// Moves the next bytes of the open file to the front of `into`, and returns their number. It
    /// is 0 only at the end. After a fault nothing can be taken until a file is opened.
    fn take(&mut self, into: &mut [u8]) -> Result<usize, Failed>
        requires ready { is_ready self.old ≡ true }
        requires room { 0 < length into.old }
        ensures files { KeepsFiles (files self.old) (files self.new) }
        ensures asked { KeepsNames (asked self.old) (asked self.new) }
        ensures bound { ReadsAtMost result into.new }
        ensures bytes { ReadConsumes (left self.old) (left self.new) result into.new }
        ensures ready { is_ready self.new ≡ is_ok result }
        ensures cause { HasCause (faults self.old) (faults self.new) result };
}

/// Files in memory, with failing and short calls as set up. Contracts see them as a `FilesState`.
#[derive(Drop)]
pub struct MemFiles {
    alloc: Global,
    files: Vec<(String, Vec<u8>)>,
    asked: Vec<String>,
    opened: Vec<u8>,
    at: usize,
    ready: bool,
    failing: Vec<u64>,
    step: usize,
    calls: u64,
    faults: u64,
}

impl Model for MemFiles {
    ghost Value = { FilesState };

    ghost view = { λ s. record {
      files = map entry s.files.items;
      asked = map string_bytes s.asked.items;
      left = drop s.at s.opened.items;
      is_ready = s.ready;
      failing = s.failing.items;
      step = s.step;
      calls = s.calls;
      faults = s.faults;
    } };

    ghost invariant = { λ s. (0 < s.step) × (s.at ≤ length s.opened.items) };
}

impl MemFiles {
    /// These files, none of them open; of two with the same name the first counts. The calls whose
    /// numbers are in `failing` fail, opens and takes counted together from 1. Every other take
    /// returns at most `step` bytes.
    pub fn new(
        alloc: Global,
        files: Vec<(String, Vec<u8>)>,
        failing: Vec<u64>,
        step: usize,
    ) -> MemFiles
        requires moves { 0 < step }
        ensures starts { result ≡ new_files (map entry files.items) failing.items step }
    {
        MemFiles {
            alloc,
            files,
            asked: Vec::new(alloc),
            opened: Vec::new(alloc),
            at: 0,
            ready: false,
            failing,
            step,
            calls: 0,
            faults: 0,
        }
    }

    /// The names requested, in order. A failed open may or may not have added its name.
    pub fn asked(&self) -> &[String]
        ensures names { map string_bytes result.now ≡ self.now.asked }
    {
        &self.asked
    }

    // Adds the name to those requested and copies the file. `None` if the call is set up to fail,
    // if no such file exists, and for a failed allocation.
    fn look(&mut self, name: &str) -> Option<Vec<u8>>
        ensures asked { IfSome result (λ _. self.new.asked ≡ self.old.asked ++ name.now ∷ []) }
        ensures other { IfNone result ((self.new.asked ≡ self.old.asked)
            ⊎ (self.new.asked ≡ self.old.asked ++ name.now ∷ [])) }
        ensures bytes { IfSome result (λ b. Some b.items ≡ file_of name.now self.old.files) }
        ensures files { self.new.files ≡ self.old.files }
        ensures rest { self.new ≡ record self.old { asked = self.new.asked; calls = next_count self.old.calls } }
        ensures faults { self.new.faults ≡ self.old.faults }
        ensures fails { Contains self.old.failing (next_count self.old.calls) → result ≡ None }
        ensures counts { self.new.calls ≡ next_count self.old.calls }
    {
        self.calls = self.calls.saturating_add(1);
        if self.failing.contains(&self.calls) {
            return None;
        }
        let word = String::from_str(self.alloc, name).ok()?;
        self.asked.push(word).ok()?;
        find(&self.files, name)?.to_vec(self.alloc).ok()
    }
}

impl Files for MemFiles {
    ghost files = { λ s. Some s.files };

    ghost asked = { λ s. Some s.asked };

    ghost left = { λ s. Some s.left };

    ghost is_ready = { λ s. s.is_ready };

    ghost faults = { λ s. s.faults };

    /// As for all files; fails at the calls set up to fail, if no file has this name, and for a
    /// failed allocation.
    fn open(&mut self, name: &str) -> Result<(), Failed>
        ensures files { KeepsFiles (Some self.old.files) (Some self.new.files) }
        ensures asked { OnOk result (AsksFor name.now (Some self.old.asked) (Some self.new.asked)) }
        ensures refused { OnErr result (MayAskFor name.now (Some self.old.asked) (Some self.new.asked)) }
        ensures opens { OnOk result (Opens name.now (Some self.old.files) (Some self.new.left)) }
        ensures ready { self.new.is_ready ≡ is_ok result }
        ensures cause { HasCause self.old.faults self.new.faults result }
        ensures fails { Contains self.old.failing (next_count self.old.calls) → IsErr result }
        ensures counts { self.new.calls ≡ next_count self.old.calls }
        ensures opened { OnOk result (self.new ≡ record self.old { asked = self.new.asked; left = self.new.left; is_ready = true; calls = next_count self.old.calls }) }
        ensures failed { OnErr result (self.new ≡ record self.old { asked = self.new.asked; is_ready = false; calls = next_count self.old.calls; faults = next_count self.old.faults }) }
    {
        match self.look(name) {
            Some(bytes) => {
                self.opened = bytes;
                self.at = 0;
                self.ready = true;
                Ok(())
            }
            None => {
                self.ready = false;
                self.faults = self.faults.saturating_add(1);
                Err(Failed)
            }
        }
    }

    /// As for all files; fails exactly at the calls set up to fail.
    #[tactic(auto, using(crate::proofs::Rest::drop_rest))]
    fn take(&mut self, into: &mut [u8]) -> Result<usize, Failed>
        requires ready { self.old.is_ready ≡ true }
        requires room { 0 < length into.old }
        ensures files { KeepsFiles (Some self.old.files) (Some self.new.files) }
        ensures asked { KeepsNames (Some self.old.asked) (Some self.new.asked) }
        ensures bound { ReadsAtMost result into.new }
        ensures bytes { ReadConsumes (Some self.old.left) (Some self.new.left) result into.new }
        ensures ready { self.new.is_ready ≡ is_ok result }
        ensures cause { HasCause self.old.faults self.new.faults result }
        ensures fails { IsErr result ↔ Contains self.old.failing (next_count self.old.calls) }
        ensures step { IfOk result (λ n. n ≤ self.old.step) }
        ensures counts { self.new.calls ≡ next_count self.old.calls }
        ensures gave { IfOk result (λ n. self.new ≡ record self.old { left = drop n self.old.left; calls = next_count self.old.calls }) }
        ensures failed { OnErr result (self.new ≡ record self.old { is_ready = false; calls = next_count self.old.calls; faults = next_count self.old.faults }) }
    {
        self.calls = self.calls.saturating_add(1);
        if self.failing.contains(&self.calls) {
            self.ready = false;
            self.faults = self.faults.saturating_add(1);
            return Err(Failed);
        }
        let count = give(&self.opened[self.at..], self.step, into);
        self.at += count;
        Ok(count)
    }
}

// The bytes of the first file with this name.
fn find<'a>(files: &'a [(String, Vec<u8>)], name: &str) -> Option<&'a [u8]>
    ensures first { option_map (λ s. s.now) result ≡ file_of name.now (map entry files.now) }
{
    for (other, bytes) in files {
        if other.as_str() == name {
            return Some(bytes);
        }
    }
    None
}

/// The files of the current folder. Their names and contents are opaque, and so are the names
/// requested. The bytes that the open file has left are visible if that file shows them. Contracts
/// see them as a `Folder`.
#[derive(Drop)]
pub struct DirFiles<D: Disk + Drop> {
    disk: D,
    file: Option<D::File>,
    ready: bool,
    faults: u64,
}

impl<D: Disk + Drop> Model for DirFiles<D> {
    ghost Value = { Folder };

    ghost view = { λ s. record { told = left_of D.File.remaining s.file; is_ready = s.ready && is_some s.file; faults = s.faults } };
}

impl<D: Disk + Drop> DirFiles<D> {
    /// The files of the folder of this runtime, none of them open yet.
    pub fn new(disk: D) -> DirFiles<D>
        ensures starts { result ≡ record { told = None; is_ready = false; faults = 0 } }
    {
        DirFiles {
            disk,
            file: None,
            ready: false,
            faults: 0,
        }
    }

    // Replaces the open file by `opened`, or by none.
    fn hold(&mut self, opened: Option<D::File>) -> Result<(), Failed>
        ensures told { self.new.told ≡ left_of D.File.remaining opened }
        ensures opened { is_ok result ≡ is_some opened }
        ensures ready { self.new.is_ready ≡ is_ok result }
        ensures cause { HasCause self.old.faults self.new.faults result }
        ensures counts { CountsFaults self.old.faults self.new.faults result }
    {
        self.file = opened;
        self.ready = self.file.is_some();
        if self.ready {
            return Ok(());
        }
        self.faults = self.faults.saturating_add(1);
        Err(Failed)
    }
}

impl<D: Disk + Drop> Files for DirFiles<D> {
    ghost files = { λ _. None };

    ghost asked = { λ _. None };

    ghost left = { λ s. s.told };

    ghost is_ready = { λ s. s.is_ready };

    ghost faults = { λ s. s.faults };

    /// As for all files; counts exactly the calls that failed.
    fn open(&mut self, name: &str) -> Result<(), Failed>
        ensures ready { self.new.is_ready ≡ is_ok result }
        ensures cause { HasCause self.old.faults self.new.faults result }
        ensures counts { CountsFaults self.old.faults self.new.faults result }
    {
        let opened = fs::open(&self.disk, name).ok();
        self.hold(opened)
    }

    /// As for all files; counts exactly the calls that failed.
    fn take(&mut self, into: &mut [u8]) -> Result<usize, Failed>
        requires ready { self.old.is_ready ≡ true }
        requires room { 0 < length into.old }
        ensures bound { ReadsAtMost result into.new }
        ensures bytes { ReadConsumes self.old.told self.new.told result into.new }
        ensures ready { self.new.is_ready ≡ is_ok result }
        ensures cause { HasCause self.old.faults self.new.faults result }
        ensures counts { CountsFaults self.old.faults self.new.faults result }
    {
        if let Some(file) = &mut self.file {
            if let Ok(count) = file.read(into) {
                return Ok(count);
            }
        }
        self.ready = false;
        self.faults = self.faults.saturating_add(1);
        Err(Failed)
    }
}
