//! Reads and prints the fields of table files.
ghost use Rattle.std.specs.Prelude.{◌≡◌, ◌≢◌, ◌∷◌, ◌++◌, true, false, Ok, Err, MatchOption, OnOk, OnErr, string_bytes};
ghost use Rattle.mob_numeral.specs.declared.fault.ReadText.TheVariants.{NoMemory};
ghost use Rattle.mob_literal.specs.Memory.{takes_memory};
ghost use Rattle.mob_literal.specs.SqlText.{SaysAs};
ghost use Rattle.mob_literal.specs.Fields.{begins_with_backslash, doubled as with_backslash, undoubled as without_backslash, is_null_text as null_text, is_null_field, text_of_field, field_text};

use crate::sql::{read_value, write_value};
use mob_ast::SqlType;
use mob_scalar::{Epoch, ReadText};
use mob_value::Value;
use std::alloc::{AllocError, Global};

/// The text after the backslash at its front; `None` if it does not begin with one.
fn behind_backslash(text: &str) -> Option<&str>
    ensures value { MatchOption result (begins_with_backslash text.now ≡ false) (λ rest. text.now ≡ 92 ∷ rest.now) }
{
    text.strip_prefix('\\')
}

fn is_null_text(field: &str) -> bool
    ensures value { result ≡ null_text field.now }
{
    field == "\\N"
}

/// Whether a field is NULL.
fn is_null(ty: SqlType, field: &str) -> bool
    ensures value { result ≡ is_null_field ty field.now }
{
    match ty {
        SqlType::Text => is_null_text(field),
        _ => field.is_empty() || is_null_text(field),
    }
}

/// A field that begins with two backslashes, without the first; any other field unchanged.
#[tactic(auto, unfolding(crate::specs::Fields::undoubled))]
fn undoubled(field: &str) -> &str
    ensures value { result.now ≡ without_backslash field.now }
{
    let Some(rest) = behind_backslash(field) else {
        return field;
    };
    match behind_backslash(rest) {
        Some(_) => rest,
        None => field,
    }
}

/// The text of a field other than NULL.
fn text_in(ty: SqlType, field: &str) -> &str
    ensures value { result.now ≡ text_of_field ty field.now }
{
    match ty {
        SqlType::Text => undoubled(field),
        _ => field,
    }
}

/// Reads the value of a field of a table file, in a column of this type.
///
/// The field `\N` is NULL. In a column of any type but text an empty field is NULL too. In a text
/// column a field that begins with two backslashes loses one. Any other field is read whole by
/// `read_value`, whose faults it returns.
pub fn read_field(alloc: Global, ty: SqlType, field: &str, epoch: &Epoch) -> Result<Value, ReadText>
    ensures null { is_null_field ty field.now ≡ true → result ≡ Ok Value.Null }
    ensures reading { is_null_field ty field.now ≡ false → SaysAs ty epoch.now (text_of_field ty field.now) result }
    ensures memory { takes_memory ty ≡ false → result ≢ Err NoMemory }
{
    if is_null(ty, field) {
        return Ok(Value::Null);
    }
    read_value(alloc, ty, text_in(ty, field), epoch)
}

/// Appends a text; if it begins with a backslash, it gets one more in front.
#[tactic(auto, unfolding(crate::specs::Fields::doubled))]
fn write_doubled(text: &str, into: &mut String) -> Result<(), AllocError>
    ensures written { OnOk result (string_bytes into.new ≡ string_bytes into.old ++ with_backslash text.now) }
    ensures unchanged { OnErr result (string_bytes into.new ≡ string_bytes into.old) }
{
    if behind_backslash(text).is_none() {
        return into.push_str(text);
    }
    into.reserve(text.len() + 1)?;
    into.push_str("\\")?;
    into.push_str(text)
}

/// Appends the field of a value: `\N` for NULL, and else the printed text. A text that begins with
/// a backslash gets one more in front. An error means that an allocation failed; `into` is then
/// unchanged.
pub fn write_field(value: &Value, epoch: &Epoch, into: &mut String) -> Result<(), AllocError>
    ensures written { OnOk result (string_bytes into.new ≡ string_bytes into.old ++ field_text epoch.now value.now) }
    ensures unchanged { OnErr result (string_bytes into.new ≡ string_bytes into.old) }
{
    match value {
        Value::Null => into.push_str("\\N"),
        Value::Text(text) => write_doubled(text.as_str(), into),
        _ => write_value(value, epoch, into),
    }
}
