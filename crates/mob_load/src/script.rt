//! What a script reads before it runs.
ghost use Rattle.std.specs.Prelude.{◌≡◌, ◌≤◌, Ok, IfErr, IfOk, OnOk, map};
ghost use Rattle.mob_outside.specs.Faults.{Rose};
ghost use Rattle.mob_outside.specs.Told.{KeepsFiles};
ghost use Rattle.mob_typed.specs.Statements.{script_seen};
ghost use Rattle.mob_load.specs.Fronts.{AsksForAll, AsksForSome, OnFiles};
ghost use Rattle.mob_load.specs.Checks.{check_seen, checks_of};
ghost use Rattle.mob_load.specs.Loads.{AreNarrow, HasFaultCause, IsLoadOutcome, IsTypedScript, Loads, LoadsScript, ReadsChecks, ReadsScript, ChecksStopBy, copied_files, loaded_of, names_in, nothing_loaded};

use crate::check::Check;
use crate::checking::run_check;
use crate::loading::Loading;
use crate::order::checks_of;
use crate::program::{LoadEnd, Program};
use mob_list::items::Items;
use mob_outside::Files;
use mob_scalar::Epoch;
use mob_typed::Typed;
use std::alloc::Global;

// The state before the first check.
fn nothing_loaded<'a>(alloc: Global) -> Loading<'a>
    ensures nothing { loaded_of result ≡ nothing_loaded }
{
    Loading {
        values: Items::new(alloc),
        tables: Vec::new(alloc),
        rows: Vec::new(alloc),
        files: Items::new(alloc),
    }
}

// Runs the checks in order, up to the first that fails.
fn load_checks<'a, F: Files>(
    alloc: Global,
    checks: &[Check<'a>],
    files: &mut F,
    epoch: &Epoch,
) -> Result<Loading<'a>, LoadEnd>
    requires narrow { AreNarrow (map check_seen checks.now) }
    ensures loaded { IfOk result (λ l. OnFiles (names_in (map check_seen checks.now)) (F.files files.old) (λ m. Loads epoch.now m (map check_seen checks.now) nothing_loaded (Ok (loaded_of l)))) }
    ensures reads { IfOk result (λ l. ReadsChecks epoch.now (map check_seen checks.now) nothing_loaded (loaded_of l)) }
    ensures stopped { IfErr result (ChecksStopBy epoch.now (map check_seen checks.now) (names_in (map check_seen checks.now)) (F.files files.old) (F.asked files.old) (F.asked files.new)) }
    ensures cause { IfErr result (HasFaultCause (F.faults files.old) (F.faults files.new)) }
    ensures asked { OnOk result (AsksForAll (names_in (map check_seen checks.now)) (F.asked files.old) (F.asked files.new)) }
    ensures some { AsksForSome (names_in (map check_seen checks.now)) (F.asked files.old) (F.asked files.new) }
    ensures files { KeepsFiles (F.files files.old) (F.files files.new) }
    ensures later { F.faults files.old ≤ F.faults files.new }
{
    let mut loading = nothing_loaded(alloc);
    for check in checks {
        run_check(alloc, *check, &mut loading, files, epoch)?;
    }
    Ok(loading)
}

// The program that was read.
fn program_of(loading: Loading<'_>) -> Program
    ensures read { result ≡ record { values = (loaded_of loading.entry).values; files = (loaded_of loading.entry).files } }
{
    let Loading { values, files, .. } = loading;
    Program { values, files }
}

/// The values of a script's literals and the rows of its files; or the first refusal in written
/// order: of a literal without a value, of a row beyond the first million of its table, or of a
/// file. Each file is read when its statement is reached, to its end or to one byte past
/// 16,777,216. `ReadFault` comes only if the files failed, and `NoMemory` if an allocation fails.
pub fn load<F: Files>(
    alloc: Global,
    typed: &Typed,
    files: &mut F,
    epoch: &Epoch,
) -> Result<Program, LoadEnd>
    requires typed { IsTypedScript (script_seen typed.now) }
    ensures loaded { IfOk result (λ p. OnFiles (copied_files (script_seen typed.now).statements) (F.files files.old) (λ m. LoadsScript epoch.now m (script_seen typed.now) (Ok p))) }
    ensures reads { IfOk result (λ p. ReadsScript epoch.now (script_seen typed.now) p) }
    ensures stopped { IfErr result (ChecksStopBy epoch.now (checks_of (script_seen typed.now)) (copied_files (script_seen typed.now).statements) (F.files files.old) (F.asked files.old) (F.asked files.new)) }
    ensures cause { IfErr result (HasFaultCause (F.faults files.old) (F.faults files.new)) }
    ensures complete { (Rose (F.faults files.old) (F.faults files.new) → ⊥) → OnFiles (copied_files (script_seen typed.now).statements) (F.files files.old) (λ m. IsLoadOutcome epoch.now m (script_seen typed.now) result) }
    ensures asked { OnOk result (AsksForAll (copied_files (script_seen typed.now).statements) (F.asked files.old) (F.asked files.new)) }
    ensures some { AsksForSome (copied_files (script_seen typed.now).statements) (F.asked files.old) (F.asked files.new) }
    ensures files { KeepsFiles (F.files files.old) (F.files files.new) }
    ensures later { F.faults files.old ≤ F.faults files.new }
{
    let checks = checks_of(alloc, typed)?;
    match load_checks(alloc, &checks, files, epoch) {
        Ok(loading) => Ok(program_of(loading)),
        Err(end) => Err(end),
    }
}
