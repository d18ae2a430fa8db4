//! One check: a literal, a new table, a row of an INSERT, or a file.
ghost use Rattle.std.specs.Prelude.{◌≡◌, ◌≢◌, ◌+◌, ◌^◌, ◌<◌, ◌≤◌, IfErr, IfOk, IfSome, OnOk, length, map, option_map, slice_get, slice_index, slice_set, Some};
ghost use Rattle.mob_outside.specs.Told.{AsksFor, KeepsFiles, MayAskFor, file_of};
ghost use Rattle.mob_list.specs.Faults.{OnCause};
ghost use Rattle.mob_catalog.specs.TableFile.{FileFails, IsTable};
ghost use Rattle.mob_load.specs.Checks.{check_seen, file};
ghost use Rattle.mob_load.specs.Fronts.{AsksForAll, AsksForSome, OnFiles};
ghost use Rattle.mob_load.specs.Loads.{LoadsTo, HasFaultCause, HasNarrow, IsFaultAt, IsNarrow, IsNoFault, IsRead, LoadsCheck, LoadsFile, LoadsLiteral, OnRead, ReadsCheck, columns_or_none, loaded_of, names_of, one_row, loaded_row_count, with_file, with_made_table};
ghost use Rattle.mob_load.specs.declared.program.LoadEnd.TheVariants.{NoMemory, Refused};

use crate::check::Check;
use crate::loading::Loading;
use crate::program::LoadEnd;
use mob_ast::{Kind, Refusal, SqlType};
use mob_catalog::{FILE_LIMIT, LoadFault, constant, read_table};
use mob_list::fault::Fault;
use mob_list::text::Text;
use mob_outside::{FileEnd, Files, read_file};
use mob_scalar::Epoch;
use mob_typed::ConstText;
use mob_value::{Rows, Value};
use std::alloc::Global;

// The most rows that a script may put into one table.
const GREATEST_ROWS: u32 = 1_000_000;

// The end of loading for a refused literal.
fn end_of(refusal: Refusal) -> LoadEnd
    ensures memory { refusal.kind ≡ Kind.NoMemory → result ≡ NoMemory }
    ensures refused { refusal.kind ≢ Kind.NoMemory → result ≡ Refused refusal }
{
    match refusal.kind {
        Kind::NoMemory => LoadEnd::NoMemory,
        _ => LoadEnd::Refused(refusal),
    }
}

// Reads a literal, and adds its value to those so far.
fn read_literal(
    alloc: Global,
    loading: &mut Loading<'_>,
    literal: &ConstText,
    epoch: &Epoch,
) -> Result<(), LoadEnd>
    ensures read { LoadsTo result (loaded_of loading.new) (LoadsLiteral epoch.now literal.now (loaded_of loading.old)) }
    ensures no_fault { IfErr result IsNoFault }
    ensures tables { OnOk result ((loaded_of loading.new).tables ≡ (loaded_of loading.old).tables) }
{
    match constant(alloc, literal, epoch) {
        Ok(value) => {
            loading.values.push(value)?;
            Ok(())
        }
        Err(refusal) => Err(end_of(refusal)),
    }
}

// Adds a table with these columns, without rows.
fn make_table<'a>(loading: &mut Loading<'a>, columns: &'a [(Text, SqlType)]) -> Result<(), LoadEnd>
    ensures made { OnOk result (loaded_of loading.new ≡ with_made_table (loaded_of loading.old) columns.now) }
    ensures memory { IfErr result (λ e. e ≡ NoMemory) }
{
    loading.tables.push(columns)?;
    loading.rows.push(0)?;
    Ok(())
}

// How many rows the table of this number has so far.
fn row_count(rows: &[u32], table: u32) -> u32
    ensures count { result ≡ slice_index rows.now table }
{
    match rows.get(table as usize) {
        Some(count) => *count,
        None => 0,
    }
}

// Counts rows of the table of this number.
fn add_rows(rows: &mut Vec<u32>, table: u32, count: u32)
    requires fits { slice_index rows.old.items table + count < 2 ^ 32 }
    ensures counted { rows.new.items ≡ slice_set rows.old.items table (slice_index rows.old.items table + count) }
{
    let sum = row_count(rows, table) + count;
    if (table as usize) < rows.len() {
        rows[table as usize] = sum;
    }
}

// Counts a row of an INSERT, or refuses it if its table is full.
fn take_row(
    loading: &mut Loading<'_>,
    table: u32,
    statement: u32,
    place: u32,
) -> Result<(), LoadEnd>
    ensures row { LoadsTo result (loaded_of loading.new) (λ r. r ≡ one_row table statement place (loaded_of loading.old)) }
    ensures no_fault { IfErr result IsNoFault }
    ensures tables { OnOk result ((loaded_of loading.new).tables ≡ (loaded_of loading.old).tables) }
{
    if row_count(&loading.rows, table) >= GREATEST_ROWS {
        return Err(LoadEnd::Refused(Refusal {
            kind: Kind::Limit,
            statement,
            place,
        }));
    }
    add_rows(&mut loading.rows, table, 1);
    Ok(())
}

// The columns of the table of this number.
fn columns_of_table<'a>(
    tables: &[&'a [(Text, SqlType)]],
    table: u32,
) -> Option<&'a [(Text, SqlType)]>
    ensures columns { option_map (λ c. c.now) result ≡ slice_get (map (λ c. c.now) tables.now) table }
{
    match tables.get(table as usize) {
        Some(columns) => Some(*columns),
        None => None,
    }
}

// The rows of a file. A table that does not exist has no columns; no statement names one.
fn rows_of_bytes(
    alloc: Global,
    bytes: &[u8],
    columns: Option<&[(Text, SqlType)]>,
    epoch: &Epoch,
    room: u32,
) -> Result<Rows<Value>, LoadFault>
    requires narrow { length (columns_or_none (option_map (λ c. c.now) columns)) ≤ 64 }
    ensures table { IfOk result (IsTable (columns_or_none (option_map (λ c. c.now) columns.entry)) epoch.now room bytes.now) }
    ensures first_fault { IfErr result (OnCause (FileFails (columns_or_none (option_map (λ c. c.now) columns.entry)) epoch.now room bytes.now)) }
{
    match columns {
        Some(columns) => read_table(alloc, bytes, columns, epoch, room),
        None => {
            let none: Vec<(Text, SqlType)> = Vec::new(alloc);
            read_table(alloc, bytes, &none, epoch, room)
        }
    }
}

// Puts the rows of a file into the table of this number.
fn put_rows(loading: &mut Loading<'_>, table: u32, rows: Rows<Value>) -> Result<(), LoadEnd>
    requires fits { loaded_row_count (loaded_of loading.old) table + length rows < 2 ^ 32 }
    ensures put { OnOk result (loaded_of loading.new ≡ with_file (loaded_of loading.old) table rows) }
    ensures memory { IfErr result (λ e. e ≡ NoMemory) }
{
    add_rows(&mut loading.rows, table, rows.len() as u32);
    loading.files.push(rows)?;
    Ok(())
}

// Reads the bytes of a file as rows of the table of this number.
fn load_bytes(
    alloc: Global,
    loading: &mut Loading<'_>,
    table: u32,
    name: &Text,
    bytes: &[u8],
    epoch: &Epoch,
) -> Result<(), LoadEnd>
    requires narrow { HasNarrow (loaded_of loading.old).tables }
    ensures loads { LoadsTo result (loaded_of loading.new) (LoadsFile epoch.now table name.now (loaded_of loading.old) (Some bytes.now)) }
    ensures fault { IfErr result (IsFaultAt (file table name.now)) }
    ensures read { IfErr result IsRead }
    ensures tables { OnOk result ((loaded_of loading.new).tables ≡ (loaded_of loading.old).tables) }
{
    let room = GREATEST_ROWS.saturating_sub(row_count(&loading.rows, table));
    let columns = columns_of_table(&loading.tables, table);
    match rows_of_bytes(alloc, bytes, columns, epoch, room) {
        Ok(rows) => put_rows(loading, table, rows),
        Err(Fault::Because(wrong)) => Err(LoadEnd::TableRefused {
            file: name.copy(alloc)?,
            kind: wrong.kind,
            rec: wrong.rec,
            field: wrong.field,
        }),
        Err(Fault::NoMemory) => Err(LoadEnd::NoMemory),
    }
}

// Reads a file as rows of the table of this number.
fn load_file<F: Files>(
    alloc: Global,
    loading: &mut Loading<'_>,
    files: &mut F,
    table: u32,
    name: &Text,
    epoch: &Epoch,
) -> Result<(), LoadEnd>
    requires narrow { HasNarrow (loaded_of loading.old).tables }
    ensures loads { IfSome (F.files files.old) (λ m. LoadsTo result (loaded_of loading.new) (LoadsFile epoch.now table name.now (loaded_of loading.old) (file_of name.now m))) }
    ensures reads { OnOk result (ReadsCheck epoch.now (file table name.now) (loaded_of loading.old) (loaded_of loading.new)) }
    ensures fault { IfErr result (IsFaultAt (file table name.now)) }
    ensures tables { OnOk result ((loaded_of loading.new).tables ≡ (loaded_of loading.old).tables) }
    ensures cause { IfErr result (HasFaultCause (F.faults files.old) (F.faults files.new)) }
    ensures files { KeepsFiles (F.files files.old) (F.files files.new) }
    ensures asked { OnRead result (AsksFor name.now (F.asked files.old) (F.asked files.new)) }
    ensures may_ask { MayAskFor name.now (F.asked files.old) (F.asked files.new) }
    ensures later { F.faults files.old ≤ F.faults files.new }
{
    match read_file(alloc, files, name.as_str(), FILE_LIMIT) {
        Ok(bytes) => load_bytes(alloc, loading, table, name, &bytes, epoch),
        Err(FileEnd::NotOpened | FileEnd::Fault) => Err(LoadEnd::ReadFault {
            file: name.copy(alloc)?,
        }),
        Err(FileEnd::NoMemory) => Err(LoadEnd::NoMemory),
    }
}

/// Runs one check, which adds to what was read. A script is refused at the first check that fails.
pub fn run_check<'a, F: Files>(
    alloc: Global,
    check: Check<'a>,
    loading: &mut Loading<'a>,
    files: &mut F,
    epoch: &Epoch,
) -> Result<(), LoadEnd>
    requires narrow { IsNarrow (check_seen check) }
    requires tables { HasNarrow (loaded_of loading.old).tables }
    ensures loads { OnFiles (names_of (check_seen check.entry)) (F.files files.old) (λ m. LoadsTo result (loaded_of loading.new) (LoadsCheck epoch.now m (check_seen check.entry) (loaded_of loading.old))) }
    ensures reads { OnOk result (ReadsCheck epoch.now (check_seen check.entry) (loaded_of loading.old) (loaded_of loading.new)) }
    ensures fault { IfErr result (IsFaultAt (check_seen check.entry)) }
    ensures narrow { OnOk result (HasNarrow (loaded_of loading.new).tables) }
    ensures cause { IfErr result (HasFaultCause (F.faults files.old) (F.faults files.new)) }
    ensures files { KeepsFiles (F.files files.old) (F.files files.new) }
    ensures asked { OnRead result (AsksForAll (names_of (check_seen check.entry)) (F.asked files.old) (F.asked files.new)) }
    ensures some { AsksForSome (names_of (check_seen check.entry)) (F.asked files.old) (F.asked files.new) }
    ensures later { F.faults files.old ≤ F.faults files.new }
{
    match check {
        Check::Literal(literal) => read_literal(alloc, loading, literal, epoch),
        Check::Table(columns) => make_table(loading, columns),
        Check::Room {
            table,
            statement,
            place,
        } => take_row(loading, table, statement, place),
        Check::File { table, name } => { load_file(alloc, loading, files, table, name, epoch) }
    }
}
