//! The line that a run leaves in its notes, unless it ended well.
ghost use Rattle.std.specs.Prelude.{OnOk, OnErr};
ghost use Rattle.std.specs.Io.KnownBytes.{Appends};
ghost use Rattle.mob_outside.specs.Faults.{HasCause};
ghost use Rattle.mob_ending.specs.Lines.{fault_line, note_line, overflow_line, passes_text, read_line, refusal_line, statement_text, table_line};
ghost use Rattle.mob_outside.specs.Streams.{Puts, PutsPart};

use crate::Ending;
use crate::pieces::{put_record, put_rows, what_passes};
use itoa::Buffer;
use mob_ast::{Kind, Refusal};
use mob_list::text::Text;
use mob_outside::{Failed, Sink, put_all, put_pieces};
use mob_slice::Formula;

const USAGE: &[u8] =
    b"usage: mobsql [--workers N] [--epoch DATE] [--demo N] [--wide] < script.sql\n";

// The line of a refusal of the script.
fn put_refusal<E: Sink>(notes: &mut E, refusal: Refusal) -> Result<(), Failed>
    ensures puts { Puts (refusal_line refusal) (E.held notes.old) (E.held notes.new) (E.faults notes.old) (E.faults notes.new) }
{
    let mut statement = Buffer::new();
    let mut place = Buffer::new();
    let mut number = Buffer::new();
    let pieces = [
        b"statement ".as_slice(),
        statement.format(refusal.statement).as_bytes(),
        b", byte ".as_slice(),
        place.format(refusal.place).as_bytes(),
        b": refusal ".as_slice(),
        number.format(refusal.kind.number()).as_bytes(),
        b" (".as_slice(),
        refusal.kind.name().as_bytes(),
        b")\n".as_slice(),
    ];
    put_pieces(notes, &pieces)
}

// The line of a refusal of a table file.
fn put_table_refusal<E: Sink>(
    notes: &mut E,
    file: &str,
    kind: Kind,
    rec: u32,
    field: u32,
) -> Result<(), Failed>
    ensures puts { Puts (table_line file.now kind rec field) (E.held notes.old) (E.held notes.new) (E.faults notes.old) (E.faults notes.new) }
{
    put_all(notes, file.as_bytes())?;
    put_record(notes, kind, rec, field)
}

// The number of a statement, before its rows.
fn put_statement<E: Sink>(notes: &mut E, statement: u32) -> Result<(), Failed>
    ensures whole { OnOk result (Appends (E.held notes.old) (E.held notes.new) (statement_text statement)) }
    ensures part { OnErr result (PutsPart (statement_text statement) (E.held notes.old) (E.held notes.new)) }
    ensures cause { HasCause (E.faults notes.old) (E.faults notes.new) result }
{
    let mut number = Buffer::new();
    let pieces = [
        b"statement ".as_slice(),
        number.format(statement).as_bytes(),
        b", rows ".as_slice(),
    ];
    put_pieces(notes, &pieces)
}

// The place, and what does not fit, after the rows.
fn put_passes<E: Sink>(notes: &mut E, place: u32, formula: Formula) -> Result<(), Failed>
    ensures puts { Puts (passes_text place formula) (E.held notes.old) (E.held notes.new) (E.faults notes.old) (E.faults notes.new) }
{
    let mut number = Buffer::new();
    let pieces = [
        b", byte ".as_slice(),
        number.format(place).as_bytes(),
        b": ".as_slice(),
        what_passes(formula).as_bytes(),
        b" passes 62 bits\n".as_slice(),
    ];
    put_pieces(notes, &pieces)
}

// The line of a number that does not fit.
fn put_overflow<E: Sink>(
    notes: &mut E,
    statement: u32,
    rows: &[u32],
    place: u32,
    formula: Formula,
) -> Result<(), Failed>
    ensures puts { Puts (overflow_line statement rows.now place formula) (E.held notes.old) (E.held notes.new) (E.faults notes.old) (E.faults notes.new) }
{
    put_statement(notes, statement)?;
    put_rows(notes, rows)?;
    put_passes(notes, place, formula)
}

// The line of a table file that could not be read.
fn put_file_fault<E: Sink>(notes: &mut E, file: &str) -> Result<(), Failed>
    ensures puts { Puts (fault_line file.now) (E.held notes.old) (E.held notes.new) (E.faults notes.old) (E.faults notes.new) }
{
    put_all(notes, b"read fault: ")?;
    put_all(notes, file.as_bytes())?;
    put_all(notes, b"\n")
}

// The line of a script or a file that could not be read.
fn put_read_fault<E: Sink>(notes: &mut E, file: &Option<Text>) -> Result<(), Failed>
    ensures puts { Puts (read_line file.now) (E.held notes.old) (E.held notes.new) (E.faults notes.old) (E.faults notes.new) }
{
    match file {
        None => put_all(notes, b"read fault: script\n"),
        Some(file) => put_file_fault(notes, file.as_str()),
    }
}

fn put_line<E: Sink>(notes: &mut E, ending: &Ending) -> Result<(), Failed>
    ensures puts { Puts (note_line ending.now) (E.held notes.old) (E.held notes.new) (E.faults notes.old) (E.faults notes.new) }
{
    match ending {
        Ending::Done => Ok(()),
        Ending::Usage => put_all(notes, USAGE),
        Ending::ReadFault { file } => put_read_fault(notes, file),
        Ending::WriteFault => put_all(notes, b"write fault\n"),
        Ending::NoMemory => put_all(notes, b"no memory\n"),
        Ending::TableRefused {
            file,
            kind,
            rec,
            field,
        } => put_table_refusal(notes, file.as_str(), *kind, *rec, *field),
        Ending::ScriptRefused { refusal } => put_refusal(notes, *refusal),
        Ending::Overflow {
            statement,
            rows,
            place,
            formula,
        } => put_overflow(notes, *statement, rows.as_slice(), *place, *formula),
    }
}

/// Writes the line of an ending, in pieces, without allocating. A fault of the notes cuts it short
/// and changes nothing else.
pub fn tell<E: Sink>(notes: &mut E, ending: &Ending)
    ensures puts { Puts (note_line ending.now) (E.held notes.old) (E.held notes.new) (E.faults notes.old) (E.faults notes.new) }
{
    // A note that failed changes neither the answers nor the status.
    let _ = put_line(notes, ending);
}
