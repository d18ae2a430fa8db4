//! Fields of rows, printed.
ghost use Rattle.std.specs.Prelude.{◌≡◌, ◌++◌, OnOk, string_bytes};
ghost use Rattle.mob_literal.specs.Fields.{field_text};
ghost use Rattle.mob_arrange.specs.FoundValue.{found_value};

use crate::found::FoundValue;
use crate::rows::Row;
use mob_literal::write_field;
use mob_records::FieldPrinter;
use mob_scalar::{Epoch, write_number};
use mob_value::Value;
use std::alloc::AllocError;

// Appends the field of a value.
fn write_found(found: FoundValue<'_>, epoch: &Epoch, into: &mut String) -> Result<(), AllocError>
    ensures written { OnOk result (string_bytes into.new ≡ string_bytes into.old ++ field_text epoch.now (found_value found.entry)) }
{
    match found {
        FoundValue::Number(number) => write_number(number, into),
        FoundValue::Value(value) => write_field(value, epoch, into),
        FoundValue::Nothing => write_field(&Value::Null, epoch, into),
    }
}

/// Prints the fields of rows, which come after `keys` keys.
#[derive(Clone, Copy)]
pub struct Fields<'a> {
    /// How many keys there are.
    pub keys: usize,
    /// The epoch with which instants are printed.
    pub epoch: &'a Epoch,
}

impl<'a, 'b> FieldPrinter<Row<'b>> for Fields<'a> {
    ghost use Rattle.std.specs.Prelude.{map, drop};
    ghost use Rattle.mob_literal.specs.Fields.{field_text};

    ghost fields = { λ f row. map (field_text f.epoch.now) (drop f.keys row) };

    fn count(&self, row: &Row<'b>) -> usize {
        row.len().saturating_sub(self.keys)
    }

    fn append(&self, row: &Row<'b>, number: usize, into: &mut String) -> Result<(), AllocError> {
        // The clause of `len` says how many values the row has.
        let _count = row.len();
        write_found(row.get(self.keys + number), self.epoch, into)
    }
}

/// Prints rows whose fields are printed already.
#[derive(Clone, Copy)]
pub struct Printed;

impl FieldPrinter<Vec<String>> for Printed {
    ghost use Rattle.mob_arrange.specs.TextsSeen.{strings_of};

    ghost fields = { λ _ row. strings_of row };

    fn count(&self, row: &Vec<String>) -> usize {
        row.len()
    }

    fn append(
        &self,
        row: &Vec<String>,
        number: usize,
        into: &mut String,
    ) -> Result<(), AllocError> {
        into.push_str(row[number].as_str())
    }
}
