//! Judges, loads and runs a text.
ghost use Rattle.std.specs.Prelude.{◌≡◌, ◌≤◌};
ghost use Rattle.mob_outside.specs.Told.{KeepsFiles};
ghost use Rattle.mob_outside.specs.EndsSeen.{files_seen, stream_seen};
ghost use Rattle.mob_shell.specs.Terms.{terms_of};
ghost use Rattle.mob_shell.specs.Parts.{IsEndingOfRefusal, TextEnds, unloaded};

use crate::driver::terms::terms_of;
use crate::statements::{Session, run_session};
use mob_accept::accept;
use mob_arguments::Settings;
use mob_ast::{Kind, Refusal};
use mob_catalog::laws::values_have_their_types;
use mob_ending::Ending;
use mob_join::laws::typed_queries_fit;
use mob_load::laws::literals_have_their_values;
use mob_load::{LoadEnd, load};
use mob_outside::{Files, Gate, Sink};
use mob_typing::laws::scripts_are_well_typed;
use std::alloc::Global;
use std::thread::Threads;

// The ending for a refused text.
fn refused(refusal: Refusal) -> Ending
    ensures ends { IsEndingOfRefusal refusal result }
{
    match refusal.kind {
        Kind::NoMemory => Ending::NoMemory,
        _ => Ending::ScriptRefused { refusal },
    }
}

// The ending for a script that is not loaded.
fn unloaded(end: LoadEnd) -> Ending
    ensures ends { result ≡ unloaded end }
{
    match end {
        LoadEnd::Refused(refusal) => Ending::ScriptRefused { refusal },
        LoadEnd::TableRefused {
            file,
            kind,
            rec,
            field,
        } => Ending::TableRefused {
            file,
            kind,
            rec,
            field,
        },
        LoadEnd::ReadFault { file } => Ending::ReadFault { file: Some(file) },
        LoadEnd::NoMemory => Ending::NoMemory,
    }
}

/// Judges a text; if it is a script, reads its literals and files and runs its statements. Returns
/// `Done` if every statement ran. Else it returns the ending of the first refusal, of a file that
/// cannot be read, of a statement with a fault, of a failed `out`, or of a failed allocation.
pub fn run_text<R: Threads + Sync, F: Files, K: Sink, G: Gate>(
    rt: &R,
    alloc: Global,
    bytes: &[u8],
    settings: Settings,
    files: &mut F,
    out: &mut K,
    gate: &G,
) -> Ending
    requires some { 1 ≤ settings.workers }
    requires few { settings.workers ≤ 64 }
    ensures ends { TextEnds (terms_of settings) bytes.now (files_seen F.files F.asked F.faults files.old files.new) (stream_seen K.held K.faults out.old out.new) result }
    ensures files { KeepsFiles (F.files files.old) (F.files files.new) }
    ensures filed_later { F.faults files.old ≤ F.faults files.new }
    ensures put_later { K.faults out.old ≤ K.faults out.new }
{
    scripts_are_well_typed();
    literals_have_their_values();
    values_have_their_types();
    typed_queries_fit();
    let typed = match accept(alloc, bytes) {
        Ok(typed) => typed,
        Err(refusal) => return refused(refusal),
    };
    let program = match load(alloc, &typed, files, &settings.epoch) {
        Ok(program) => program,
        Err(end) => return unloaded(end),
    };
    let mut session = Session::new(alloc, program, terms_of(&settings));
    let statements = typed.statements.as_slice();
    let workers = settings.workers as usize;
    run_session(rt, alloc, &mut session, statements, out, workers, gate)
}
