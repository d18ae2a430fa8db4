//! The text of the answer of mobnear.
ghost use Rattle.std.specs.Prelude.{◌≡◌, ◌≤◌, ◌<◌, IfOk, IfErr, length, map};
ghost use Rattle.mob_list.specs.Faults.{OnCause};
ghost use Rattle.mob_numeral.specs.NumberText.{number_text};
ghost use Rattle.mob_slice.specs.Sides.{operand_of};
ghost use Rattle.mob_records.specs.AnswerText.{answer_text};
ghost use Rattle.mob_knn.specs.Nearest.{AreNearest, AreOfTrips, IsPassed};
ghost use Rattle.mob_frac.specs.Fits.{Fits};
ghost use Rattle.mob_slice.specs.declared.formula.Formula.TheVariants.{Given};
ghost use Rattle.mob_near_run.specs.NearAnswers.{ArePrintable, IsFirstLarge, IsPassedIn, IsRowPassed, IsUnprintable, NearWrites, target_operand, near_fields, near_names};

use crate::settings::{NearSettings, Target};
use mob_frac::Frac;
use mob_knn::{NearFault, index_of, nearest, nearest_exact};
use mob_list::fault::Fault;
use mob_list::items::Items;
use mob_list::steps::Steps;
use mob_list::text::Text;
use mob_numeral::write_number;
use mob_records::counted_text;
use mob_rtree::RTree;
use mob_scalar::Epoch;
use mob_slice::{Formula, Mode, Moving, Operand, PlaneLine, mode_of};
use mob_trips::{id_text, split_rows};
use mob_value::{Rows, Value};
use mob_wide::Exact;
use std::alloc::{AllocError, Global};
use std::marker::Brand;
use std::sync::ledger::{Blank, Ledger};

// The target as an operand.
fn asked<'a>(to: &'a Target) -> Operand<'a, PlaneLine>
    ensures same { operand_of result ≡ target_operand to.entry.now }
{
    match to {
        Target::Moving(moving) => Operand::Moving(moving),
        Target::Fixed(point) => Operand::Fixed(point),
    }
}

// The nearest rows, with a step counter of their own.
fn nearest_alone<L: Ledger>(
    alloc: Global,
    tree: &RTree,
    trips: &[Option<Moving<PlaneLine>>],
    to: &Target,
    k: u32,
    blank: Blank,
) -> Result<Items<(u32, Frac)>, NearFault>
    requires entries { AreOfTrips trips.now tree.now.entries }
    requires name { blank.name ≡ L.name }
    requires parts { blank.parts ≡ L.parts }
    requires some { 0 < L.parts }
    ensures nearest { IfOk result (λ rs. AreNearest trips.now (target_operand to.now) k rs) }
    ensures passed { IfErr result (OnCause (λ f. IsPassed trips.now (target_operand to.now) k f.0 f.1)) }
{
    let mut steps = Steps::<L>::new(blank);
    nearest(alloc, tree, trips, asked(to), k, &mut steps)
}

// The nearest rows of these trips.
fn found(
    alloc: Global,
    trips: &[Option<Moving<PlaneLine>>],
    to: &Target,
    k: u32,
) -> Result<Items<(u32, Frac)>, NearFault>
    requires few { length trips.now ≤ 1000000 }
    ensures nearest { IfOk result (λ rs. AreNearest trips.now (target_operand to.now) k rs) }
    ensures passed { IfErr result (OnCause (λ f. IsPassed trips.now (target_operand to.now) k f.0 f.1)) }
{
    let tree = index_of(alloc, trips)?;
    nearest_alone::<Brand>(alloc, &tree, trips, to, k, Blank::new(1))
}

// A row whose approach can be printed.
fn printed_row(alloc: Global, row: &(u32, Exact)) -> Result<(u32, Frac), NearFault>
    ensures printed { IfOk result (λ r. (r ≡ row.now) × Fits row.now.1) }
    ensures large { IfErr result (OnCause (λ f. (f ≡ (row.now.0, Given)) × (¬ Fits row.now.1))) }
{
    let fitting = row.1.fitting(alloc)?;
    match fitting {
        Some(approach) => Ok((row.0, approach)),
        None => Err(Fault::Because((row.0, Formula::Given))),
    }
}

// Rows whose approaches can be printed, or the first that cannot.
fn printed(alloc: Global, rows: &[(u32, Exact)]) -> Result<Items<(u32, Frac)>, NearFault>
    ensures printed { IfOk result (λ rs. rs ≡ rows.now) }
    ensures large { IfErr result (OnCause (λ f. (f.1 ≡ Given) × IsFirstLarge rows.now f.0)) }
{
    let mut printed = Items::new(alloc);
    for row in rows {
        printed.push(printed_row(alloc, row)?)?;
    }
    Ok(printed)
}

// The nearest rows of these trips, with approaches of any size, if they can be printed.
fn found_wide(
    alloc: Global,
    trips: &[Option<Moving<PlaneLine>>],
    to: &Target,
    k: u32,
) -> Result<Items<(u32, Frac)>, NearFault>
    requires few { length trips.now ≤ 1000000 }
    ensures nearest { IfOk result (λ rs. AreNearest trips.now (target_operand to.now) k rs) }
    ensures passed { IfErr result (OnCause (λ f. IsUnprintable trips.now (target_operand to.now) k f.0 f.1)) }
{
    let rows = nearest_exact(alloc, trips, asked(to), k)?;
    printed(alloc, rows.as_slice())
}

// The nearest rows of these trips, in a mode.
fn found_in(
    alloc: Global,
    mode: Mode,
    trips: &[Option<Moving<PlaneLine>>],
    to: &Target,
    k: u32,
) -> Result<Items<(u32, Frac)>, NearFault>
    requires few { length trips.now ≤ 1000000 }
    ensures nearest { IfOk result (λ rs. AreNearest trips.now (target_operand to.now) k rs) }
    ensures passed { IfErr result (OnCause (λ f. IsPassedIn mode trips.now (target_operand to.now) k f.0 f.1)) }
{
    match mode {
        Mode::Narrow => found(alloc, trips, to, k),
        Mode::Wide => found_wide(alloc, trips, to, k),
    }
}

// A number of 62 bits fits: the clauses of these two calls say so.
fn knows_it_fits(number: &Frac)
    ensures fits { Fits number.now }
{
    let _num = number.num();
    let _den = number.den();
}

// So do those of rows.
fn know_they_fit(rows: &[(u32, Frac)])
    ensures fit { ArePrintable rows.now }
{
    for row in rows {
        knows_it_fits(&row.1);
    }
}

// An approach, as a field.
fn number_field(alloc: Global, number: &Frac) -> Result<Text, AllocError>
    ensures text { IfOk result (λ t. t ≡ number_text number.now) }
{
    let mut text = String::new(alloc);
    write_number(number, &mut text)?;
    Ok(Text::from_string(text))
}

// The fields of one row of the answer.
fn fields_of(
    alloc: Global,
    ids: &[Value],
    row: u32,
    approach: &Frac,
    epoch: &Epoch,
) -> Result<Items<Text>, AllocError>
    ensures fields { IfOk result (λ f. f ≡ near_fields epoch.now ids.now (row, approach.now)) }
{
    let mut fields = Items::new(alloc);
    fields.push(id_text(alloc, ids, row, epoch)?)?;
    fields.push(number_field(alloc, approach)?)?;
    Ok(fields)
}

// The rows of the answer.
fn rows_of(
    alloc: Global,
    ids: &[Value],
    found: &[(u32, Frac)],
    epoch: &Epoch,
) -> Result<Items<Items<Text>>, AllocError>
    ensures rows { IfOk result (λ rows. rows ≡ map (near_fields epoch.now ids.now) found.now) }
{
    let mut rows = Items::new(alloc);
    for entry in found {
        rows.push(fields_of(alloc, ids, entry.0, &entry.1, epoch)?)?;
    }
    Ok(rows)
}

// The names of the columns.
fn names(alloc: Global) -> Result<Items<Text>, AllocError>
    ensures names { IfOk result (λ names. names ≡ near_names) }
{
    let id = Text::from_str(alloc, "id")?;
    let approach = Text::from_str(alloc, "approach")?;
    let mut names = Items::new(alloc);
    names.push(id)?;
    names.push(approach)?;
    Ok(names)
}

// The text of the rows found.
fn text_of(
    alloc: Global,
    ids: &[Value],
    found: &[(u32, Frac)],
    epoch: &Epoch,
) -> Result<Vec<u8>, AllocError>
    ensures text { IfOk result (λ t. t.items ≡ answer_text near_names (map (near_fields epoch.now ids.now) found.now)) }
{
    let names = names(alloc)?;
    let rows = rows_of(alloc, ids, found, epoch)?;
    counted_text(alloc, names.as_slice(), rows.as_slice())
}

/// The text of the nearest rows of a table, or the fault of the search.
pub fn near_text(
    alloc: Global,
    settings: &NearSettings,
    rows: Rows<Value>,
) -> Result<Vec<u8>, NearFault>
    requires few { length rows ≤ 1000000 }
    ensures writes { IfOk result (λ t. NearWrites settings.now rows t.items) }
    ensures passed { IfErr result (OnCause (λ f. IsRowPassed settings.now rows f.0 f.1)) }
{
    let (ids, trips) = split_rows(alloc, rows)?;
    let found = found_in(
        alloc,
        mode_of(settings.wide),
        trips.as_slice(),
        &settings.to,
        settings.k,
    )?;
    know_they_fit(found.as_slice());
    Ok(text_of(alloc, ids.as_slice(), found.as_slice(), &settings.epoch)?)
}
