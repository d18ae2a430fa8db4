//! The fields of records.
ghost use Rattle.std.specs.Prelude.{◌≡◌, ◌++◌, codes, string_bytes, IfOk, OnOk};
ghost use Rattle.std.specs.Fmt.{signed_decimal};
ghost use Rattle.mob_literal.specs.Fields.{field_text};
ghost use Rattle.mob_trips.specs.Rows.{id_at};
ghost use Rattle.mob_tile_run.specs.TileTexts.{tile_text, part_fields, part_names, pair_names};
ghost use Rattle.mob_value.specs.declared.value.Value.TheVariants.{MovingPoint};

use itoa::Buffer;
use mob_list::items::Items;
use mob_list::text::Text;
use mob_literal::write_field;
use mob_records::FieldPrinter;
use mob_scalar::Epoch;
use mob_slice::{Moving, PlaneLine};
use mob_tile::Tile;
use mob_trips::id_text;
use mob_value::Value;
use std::alloc::{AllocError, Global};

// Adds a whole number.
fn push_number(text: &mut String, n: i64) -> Result<(), AllocError>
    ensures written { OnOk result (string_bytes text.new ≡ string_bytes text.old ++ signed_decimal n) }
{
    let mut digits = Buffer::new();
    text.push_str(digits.format(n))
}

// Adds a space and a whole number.
fn push_next(text: &mut String, n: i64) -> Result<(), AllocError>
    ensures written { OnOk result (string_bytes text.new ≡ string_bytes text.old ++ (codes " " ++ signed_decimal n)) }
{
    text.push_str(" ")?;
    push_number(text, n)
}

// A tile as a field: its three numbers with spaces between them.
fn tile_field(alloc: Global, tile: &Tile) -> Result<Text, AllocError>
    ensures text { IfOk result (λ t. t ≡ tile_text tile.now) }
{
    let mut text = String::new(alloc);
    push_number(&mut text, tile.i)?;
    push_next(&mut text, tile.j)?;
    push_next(&mut text, tile.k)?;
    Ok(Text::from_string(text))
}

// A part of a trip as a field.
fn part_field(alloc: Global, part: Moving<PlaneLine>, epoch: &Epoch) -> Result<Text, AllocError>
    ensures text { IfOk result (λ t. t ≡ field_text epoch.now (MovingPoint part)) }
{
    let value = Value::MovingPoint(part);
    let mut text = String::new(alloc);
    write_field(&value, epoch, &mut text)?;
    Ok(Text::from_string(text))
}

/// The fields of a part of the trip of a row: the id, the tile and the part. The only error is a
/// failed allocation.
pub fn part_fields(
    alloc: Global,
    ids: &[Value],
    row: u32,
    tile: &Tile,
    part: Moving<PlaneLine>,
    epoch: &Epoch,
) -> Result<Items<Text>, AllocError>
    ensures fields { IfOk result (λ f. f ≡ part_fields epoch.now ids.now row (tile.now, part)) }
{
    let part = part_field(alloc, part, epoch)?;
    let mut fields = Items::new(alloc);
    fields.push(id_text(alloc, ids, row, epoch)?)?;
    fields.push(tile_field(alloc, tile)?)?;
    fields.push(part)?;
    Ok(fields)
}

// Appends the id of a row as a field.
fn write_id(ids: &[Value], row: u32, epoch: &Epoch, into: &mut String) -> Result<(), AllocError>
    ensures written { OnOk result (string_bytes into.new ≡ string_bytes into.old ++ field_text epoch.now (id_at ids.now row)) }
{
    let index = row as usize;
    if index >= ids.len() {
        return write_field(&Value::Null, epoch, into);
    }
    write_field(&ids[index], epoch, into)
}

/// Prints pairs of rows as the ids of both.
#[derive(Clone, Copy)]
pub struct PairPrinter<'a> {
    /// The ids of all rows.
    pub ids: &'a [Value],
    /// The epoch with which instants are printed.
    pub epoch: &'a Epoch,
}

impl<'a> FieldPrinter<(u32, u32)> for PairPrinter<'a> {
    ghost use Rattle.mob_tile_run.specs.TileTexts.{pair_fields};

    ghost fields = { λ p pair. pair_fields p.epoch.now p.ids.now pair };

    fn count(&self, _pair: &(u32, u32)) -> usize {
        2
    }

    fn append(
        &self,
        pair: &(u32, u32),
        number: usize,
        into: &mut String,
    ) -> Result<(), AllocError> {
        if number == 0 {
            return write_id(self.ids, pair.0, self.epoch, into);
        }
        write_id(self.ids, pair.1, self.epoch, into)
    }
}

/// The names of the columns of parts. The only error is a failed allocation.
pub fn part_names(alloc: Global) -> Result<Items<Text>, AllocError>
    ensures names { IfOk result (λ names. names ≡ part_names) }
{
    let id = Text::from_str(alloc, "id")?;
    let tile = Text::from_str(alloc, "tile")?;
    let part = Text::from_str(alloc, "part")?;
    let mut names = Items::new(alloc);
    names.push(id)?;
    names.push(tile)?;
    names.push(part)?;
    Ok(names)
}

/// The names of the columns of pairs. The only error is a failed allocation.
pub fn pair_names(alloc: Global) -> Result<Items<Text>, AllocError>
    ensures names { IfOk result (λ names. names ≡ pair_names) }
{
    let a = Text::from_str(alloc, "a")?;
    let b = Text::from_str(alloc, "b")?;
    let mut names = Items::new(alloc);
    names.push(a)?;
    names.push(b)?;
    Ok(names)
}
