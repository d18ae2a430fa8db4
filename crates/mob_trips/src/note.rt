//! The line that a run leaves in its notes, unless it ended well.
ghost use Rattle.mob_outside.specs.Streams.{Puts};
ghost use Rattle.mob_trips.specs.Lines.{formula_text, limit_line, passes_line, table_refusal_line, trips_note};

use crate::TripsEnding;
use mob_ast::Kind;
use mob_ending::pieces::{put_record, put_rows, what_passes};
use mob_outside::{Failed, Sink, put_all, put_pieces};
use mob_slice::Formula;

// The line of a refusal of the table.
fn put_refusal<E: Sink>(notes: &mut E, kind: Kind, rec: u32, field: u32) -> Result<(), Failed>
    ensures puts { Puts (table_refusal_line kind rec field) (E.held notes.old) (E.held notes.new) (E.faults notes.old) (E.faults notes.new) }
{
    put_all(notes, b"table")?;
    put_record(notes, kind, rec, field)
}

// What does not fit, after the rows.
fn put_passes<E: Sink>(notes: &mut E, formula: Formula) -> Result<(), Failed>
    ensures puts { Puts (formula_text formula) (E.held notes.old) (E.held notes.new) (E.faults notes.old) (E.faults notes.new) }
{
    let pieces = [
        b": ".as_slice(),
        what_passes(formula).as_bytes(),
        b" passes 62 bits\n".as_slice(),
    ];
    put_pieces(notes, &pieces)
}

// The line of a number that does not fit.
fn put_overflow<E: Sink>(notes: &mut E, rows: &[u32], formula: Formula) -> Result<(), Failed>
    ensures puts { Puts (passes_line rows.now formula) (E.held notes.old) (E.held notes.new) (E.faults notes.old) (E.faults notes.new) }
{
    put_all(notes, b"rows ")?;
    put_rows(notes, rows)?;
    put_passes(notes, formula)
}

// The line of rows that exceed a limit.
fn put_limit<E: Sink>(notes: &mut E, rows: &[u32]) -> Result<(), Failed>
    ensures puts { Puts (limit_line rows.now) (E.held notes.old) (E.held notes.new) (E.faults notes.old) (E.faults notes.new) }
{
    put_all(notes, b"rows ")?;
    put_rows(notes, rows)?;
    put_all(notes, b": refusal 13 (Limit)\n")
}

fn put_line<E: Sink>(notes: &mut E, usage: &[u8], ending: &TripsEnding) -> Result<(), Failed>
    ensures puts { Puts (trips_note usage.now ending.now) (E.held notes.old) (E.held notes.new) (E.faults notes.old) (E.faults notes.new) }
{
    match ending {
        TripsEnding::Done => Ok(()),
        TripsEnding::Usage => put_all(notes, usage),
        TripsEnding::ReadFault => put_all(notes, b"read fault: table\n"),
        TripsEnding::WriteFault => put_all(notes, b"write fault\n"),
        TripsEnding::NoMemory => put_all(notes, b"no memory\n"),
        TripsEnding::TableRefused { kind, rec, field } => put_refusal(notes, *kind, *rec, *field),
        TripsEnding::RowsRefused { rows } => put_limit(notes, rows.as_slice()),
        TripsEnding::Overflow { rows, formula } => put_overflow(notes, rows.as_slice(), *formula),
    }
}

/// Writes the line of an ending, in pieces, without allocating; `usage` is the line for arguments
/// that are not accepted. A fault of the notes cuts it short and changes nothing else.
pub fn tell<E: Sink>(notes: &mut E, usage: &[u8], ending: &TripsEnding)
    ensures puts { Puts (trips_note usage.now ending.now) (E.held notes.old) (E.held notes.new) (E.faults notes.old) (E.faults notes.new) }
{
    // A note that failed changes neither the text nor the status.
    let _ = put_line(notes, usage, ending);
}
