//! Pieces of note lines that other programs share.
ghost use Rattle.std.specs.Prelude.{◌≡◌, map, OnOk, OnErr};
ghost use Rattle.std.specs.List.{concat};
ghost use Rattle.std.specs.Io.KnownBytes.{Appends};
ghost use Rattle.mob_outside.specs.Faults.{HasCause};
ghost use Rattle.mob_ending.specs.Lines.{further_row, record_text, row_number, rows_text, what_passes};
ghost use Rattle.mob_outside.specs.Streams.{Puts, PutsPart};

use itoa::Buffer;
use mob_ast::Kind;
use mob_outside::{Failed, Sink, put_all, put_pieces};
use mob_slice::Formula;
use mob_tuples::NO_ROW;

/// Writes the place and the kind of a refusal in a table file: `: record R, field F: refusal N
/// (Name)` and a line feed.
pub fn put_record<E: Sink>(notes: &mut E, kind: Kind, rec: u32, field: u32) -> Result<(), Failed>
    ensures puts { Puts (record_text kind rec field) (E.held notes.old) (E.held notes.new) (E.faults notes.old) (E.faults notes.new) }
{
    let mut record = Buffer::new();
    let mut column = Buffer::new();
    let mut number = Buffer::new();
    let pieces = [
        b": record ".as_slice(),
        record.format(rec).as_bytes(),
        b", field ".as_slice(),
        column.format(field).as_bytes(),
        b": refusal ".as_slice(),
        number.format(kind.number()).as_bytes(),
        b" (".as_slice(),
        kind.name().as_bytes(),
        b")\n".as_slice(),
    ];
    put_pieces(notes, &pieces)
}

// The number of a row, from 1; 0 if a left-joined table has no row.
fn row_number(row: u32) -> u64
    ensures number { result ≡ row_number row }
{
    if row == NO_ROW {
        return 0;
    }
    u64::from(row) + 1
}

// This number after a space.
fn put_further_row<E: Sink>(notes: &mut E, row: u32) -> Result<(), Failed>
    ensures whole { OnOk result (Appends (E.held notes.old) (E.held notes.new) (further_row row)) }
    ensures part { OnErr result (PutsPart (further_row row) (E.held notes.old) (E.held notes.new)) }
    ensures cause { HasCause (E.faults notes.old) (E.faults notes.new) result }
{
    let mut number = Buffer::new();
    let pieces = [b" ".as_slice(), number.format(row_number(row)).as_bytes()];
    put_pieces(notes, &pieces)
}

// The numbers of these rows, each after a space.
fn put_further_rows<E: Sink>(notes: &mut E, rows: &[u32]) -> Result<(), Failed>
    ensures whole { OnOk result (Appends (E.held notes.old) (E.held notes.new) (concat (map further_row rows.now))) }
    ensures part { OnErr result (PutsPart (concat (map further_row rows.now)) (E.held notes.old) (E.held notes.new)) }
    ensures cause { HasCause (E.faults notes.old) (E.faults notes.new) result }
{
    for row in rows {
        put_further_row(notes, *row)?;
    }
    Ok(())
}

/// Writes the numbers of rows, from 1, with spaces between them: 0 if a left-joined table has no
/// row, a hyphen if there are no tables. `Failed` comes only if the sink failed.
pub fn put_rows<E: Sink>(notes: &mut E, rows: &[u32]) -> Result<(), Failed>
    ensures whole { OnOk result (Appends (E.held notes.old) (E.held notes.new) (rows_text rows.now)) }
    ensures part { OnErr result (PutsPart (rows_text rows.now) (E.held notes.old) (E.held notes.new)) }
    ensures cause { HasCause (E.faults notes.old) (E.faults notes.new) result }
{
    let Some((row, further)) = rows.split_first() else {
        return put_all(notes, b"-");
    };
    let mut number = Buffer::new();
    put_all(notes, number.format(row_number(*row)).as_bytes())?;
    put_further_rows(notes, further)
}

/// What does not fit into 62 bits: `formula F1` to `formula F7`, or `the value`.
pub fn what_passes(formula: Formula) -> &'static str
    ensures what { result.now ≡ what_passes formula }
{
    match formula {
        Formula::F1 => "formula F1",
        Formula::F2 => "formula F2",
        Formula::F3 => "formula F3",
        Formula::F4 => "formula F4",
        Formula::F5 => "formula F5",
        Formula::F6 => "formula F6",
        Formula::F7 => "formula F7",
        Formula::Given => "the value",
    }
}
