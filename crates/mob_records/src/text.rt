//! Writes answers and table files as text, record by record.
ghost use Rattle.std.specs.Prelude.{◌≡◌, ◌++◌, ◌∷◌, ◌<◌, ◌-◌, ◌^◌, [], IfOk, OnOk, List, Option, ℕ, Some, length, map};
ghost use Rattle.std.specs.List.{concat};
ghost use Rattle.std.specs.Io.KnownBytes.{Appends};
ghost use Rattle.csv.specs.Writing.{text_written, writer_setup};
ghost use Rattle.mob_records.specs.AnswerText.{answer_text, count_line, record_line};
ghost use Rattle.mob_records.specs.Writers.{any_length, IsBetweenRecords, IsWithinRecord};

use crate::printer::FieldPrinter;
use csv::{Writer, WriterBuilder};
use itoa::Buffer;
use mob_list::items::Items;
use mob_list::text::Text;
use std::alloc::{AllocError, Global};

/// The text of an answer: a line with the names, a line for each row, and the line `(n rows)`, each
/// ending with a line feed. Fields are separated by commas. A field with a comma, a double quote, a
/// carriage return or a line feed is in double quotes, and its own double quotes are doubled. An
/// error means that an allocation failed.
pub fn counted_text(
    alloc: Global,
    names: &[Text],
    rows: &[Items<Text>],
) -> Result<Vec<u8>, AllocError>
    ensures text { IfOk result (λ v. v.items ≡ answer_text names.now rows.now) }
{
    let text = records_text(alloc, names, rows)?;
    with_count(text, rows.len())
}

/// The text of an answer, as `counted_text` writes it. `printer` prints each field as it is
/// written, so no printed row is kept in memory. An error means that an allocation failed.
pub fn counted_text_by<R, P: FieldPrinter<R>>(
    alloc: Global,
    names: &[Text],
    rows: &[R],
    printer: &P,
) -> Result<Vec<u8>, AllocError>
    ensures text { IfOk result (λ v. v.items ≡ answer_text names.now (map (P.fields printer.now) rows.now)) }
{
    let text = records_by(alloc, names, rows, printer)?;
    with_count(text, rows.len())
}

// Appends the line with the number of rows.
fn with_count(mut text: Vec<u8>, count: usize) -> Result<Vec<u8>, AllocError>
    ensures text { IfOk result (λ v. v.items ≡ text.items ++ count_line count) }
{
    let mut digits = Buffer::new();
    text.extend_from_slice(b"(")?;
    text.extend_from_slice(digits.format(count).as_bytes())?;
    text.extend_from_slice(b" rows)\n")?;
    Ok(text)
}

/// The text of a table file: a line with the names of its columns and a line for each row, each
/// ending with a line feed. An error means that an allocation failed.
pub fn records_text(
    alloc: Global,
    names: &[Text],
    rows: &[Items<Text>],
) -> Result<Vec<u8>, AllocError>
    ensures text { IfOk result (λ v. v.items ≡ concat (map record_line (names.now ∷ rows.now))) }
{
    let mut writer = WriterBuilder::new()
        .flexible(true)
        .from_writer(Vec::new(alloc));
    write_record(&mut writer, names)?;
    for row in rows {
        write_record(&mut writer, row.as_slice())?;
    }
    match writer.into_inner() {
        Ok(text) => Ok(text),
        Err(_) => Err(AllocError),
    }
}

// The records of the names and of the rows, which `printer` prints.
fn records_by<R, P: FieldPrinter<R>>(
    alloc: Global,
    names: &[Text],
    rows: &[R],
    printer: &P,
) -> Result<Vec<u8>, AllocError>
    ensures text { IfOk result (λ v. v.items ≡ concat (map record_line (names.now ∷ map (P.fields printer.now) rows.now))) }
{
    let mut writer = WriterBuilder::new()
        .flexible(true)
        .from_writer(Vec::new(alloc));
    let mut text = String::new(alloc);
    write_record(&mut writer, names)?;
    for row in rows {
        print_record(printer, row, &mut text, &mut writer)?;
    }
    match writer.into_inner() {
        Ok(text) => Ok(text),
        Err(_) => Err(AllocError),
    }
}

// Writes one record. Each field is first printed into `text`.
fn print_record<R, P: FieldPrinter<R>>(
    printer: &P,
    row: &R,
    text: &mut String,
    writer: &mut Writer<Vec<u8>>,
) -> Result<(), AllocError>
    requires between { IsBetweenRecords writer.old }
    ensures text { OnOk result (Appends (text_written (λ w. Some w.items) writer.old) (text_written (λ w. Some w.items) writer.new) (record_line (P.fields printer.now row.now))) }
    ensures between { OnOk result (IsBetweenRecords writer.new) }
{
    for number in 0..printer.count(row) {
        text.clear();
        printer.append(row, number, text)?;
        write_field(writer, text.as_str())?;
    }
    end_record(writer)
}

fn write_record(writer: &mut Writer<Vec<u8>>, fields: &[Text]) -> Result<(), AllocError>
    requires between { IsBetweenRecords writer.old }
    ensures text { OnOk result (Appends (text_written (λ w. Some w.items) writer.old) (text_written (λ w. Some w.items) writer.new) (record_line fields.now)) }
    ensures between { OnOk result (IsBetweenRecords writer.new) }
{
    for field in fields {
        write_field(writer, field.as_str())?;
    }
    end_record(writer)
}

// Writes one more field of a record. The writer writes to memory, so only an allocation can fail.
// `csv` states no cause for a writer's error, so no clause says this.
fn write_field(writer: &mut Writer<Vec<u8>>, field: &str) -> Result<(), AllocError>
    ensures within { OnOk result ((before : Option (List ℕ)) (fields : List (List ℕ)) → length fields < 2 ^ 64 - 1 → IsWithinRecord before fields writer.old → IsWithinRecord before (fields ++ field.now ∷ []) writer.new) }
{
    match writer.write_field(field.as_bytes()) {
        Ok(()) => Ok(()),
        Err(_) => Err(AllocError),
    }
}

// Ends a record. Only an allocation can fail, since the writer takes records of any length.
fn end_record(writer: &mut Writer<Vec<u8>>) -> Result<(), AllocError>
    ensures text { OnOk result ((before : Option (List ℕ)) (fields : List (List ℕ)) → IsWithinRecord before fields writer.old → Appends before (text_written (λ w. Some w.items) writer.new) (record_line fields)) }
    ensures between { OnOk result (writer_setup writer.old ≡ any_length → IsBetweenRecords writer.new) }
{
    match writer.end_record() {
        Ok(()) => Ok(()),
        Err(_) => Err(AllocError),
    }
}

/// The texts as byte slices, in order. It allocates only the list; an error means that this
/// allocation failed.
pub fn bytes_of<'a>(alloc: Global, fields: &'a [Text]) -> Result<Vec<&'a [u8]>, AllocError>
    ensures same { IfOk result (λ v. map (λ b. b.now) v.items ≡ fields.now) }
{
    let mut bytes = Vec::with_capacity(alloc, fields.len())?;
    for field in fields {
        bytes.push(field.as_str().as_bytes())?;
    }
    Ok(bytes)
}
