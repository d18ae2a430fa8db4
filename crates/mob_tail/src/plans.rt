//! The answer of EXPLAIN.
ghost use Rattle.std.specs.Prelude.{◌≡◌, ◌++◌, ◌∷◌, [], IfOk, codes, map, option_map};
ghost use Rattle.mob_typed.specs.Trees.{typed_of};
ghost use Rattle.mob_typed.specs.Selects.{select_seen};
ghost use Rattle.mob_plan.specs.Plans.{plan_seen, step_seen};
ghost use Rattle.mob_records.specs.AnswerText.{answer_text};
ghost use Rattle.mob_tail.specs.PlanAnswers.{left_word, plan_line, plan_names, plan_rows};

use mob_catalog::Catalog;
use mob_list::items::Items;
use mob_list::text::Text;
use mob_plan::{Plan, Step};
use mob_records::counted_text;
use mob_typed::{TExpr, TypedSelect, is_left};
use std::alloc::{AllocError, Global};

// The word before the step of a left-joined table.
fn left_word(left: bool) -> &'static str
    ensures word { result.now ≡ left_word left }
{
    if left { "left " } else { "" }
}

// The line, after this word, of a table that is scanned.
fn scan_line(alloc: Global, word: &str, name: &str) -> Result<Text, AllocError>
    ensures says { IfOk result (λ line. line ≡ word.now ++ codes "scan " ++ name.now) }
{
    let mut line = String::from_str(alloc, word)?;
    line.push_str("scan ")?;
    line.push_str(name)?;
    Ok(Text::from_string(line))
}

// The line, after this word, of a table whose rows an index gives.
fn probe_line(alloc: Global, word: &str, name: &str, index: &str) -> Result<Text, AllocError>
    ensures says { IfOk result (λ line. line ≡ word.now ++ codes "probe " ++ name.now ++ codes " by " ++ index.now) }
{
    let mut line = String::from_str(alloc, word)?;
    line.push_str("probe ")?;
    line.push_str(name)?;
    line.push_str(" by ")?;
    line.push_str(index)?;
    Ok(Text::from_string(line))
}

// The line of a step of a table, left-joined or not.
fn line_of(
    alloc: Global,
    left: bool,
    step: &Step,
    name: &str,
    catalog: &Catalog,
) -> Result<Text, AllocError>
    ensures says { IfOk result (λ line. line ≡ plan_line catalog.now left (step_seen step.now) name.now) }
{
    let word = left_word(left);
    match step {
        Step::Scan => scan_line(alloc, word, name),
        Step::Probe { index, .. } => probe_line(alloc, word, name, catalog.index_name(*index)),
    }
}

// A record of one field.
fn one_field(alloc: Global, field: Text) -> Result<Items<Text>, AllocError>
    ensures one { IfOk result (λ fields. fields ≡ field ∷ []) }
{
    let mut fields = Items::new(alloc);
    fields.push(field)?;
    Ok(fields)
}

// The lines of the steps, each a record.
fn lines_of(
    alloc: Global,
    steps: &[Step],
    joins: &[Option<TExpr>],
    names: &[Text],
    catalog: &Catalog,
) -> Result<Items<Items<Text>>, AllocError>
    ensures rows { IfOk result (λ rows. rows ≡ plan_rows catalog.now (map (option_map typed_of) joins.now) 0 (map step_seen steps.now) names.now) }
{
    let mut rows = Items::new(alloc);
    for (place, step) in steps.iter().enumerate() {
        let Some(name) = names.get(place) else {
            return Ok(rows);
        };
        let line = line_of(alloc, is_left(joins, place), step, name.as_str(), catalog)?;
        rows.push(one_field(alloc, line)?)?;
    }
    Ok(rows)
}

/// The text of the answer of EXPLAIN for the plan of a query. It has one column, `plan`, and one
/// line for each table of FROM: `scan` and the name of the table in the query, or `probe`, that
/// name, `by` and the name of the index. The line of a left-joined table begins with `left`. The
/// only error is a failed allocation.
pub fn plan_text(
    alloc: Global,
    plan: &Plan,
    select: &TypedSelect,
    catalog: &Catalog,
) -> Result<Vec<u8>, AllocError>
    ensures text { IfOk result (λ text. text.items ≡ answer_text plan_names (plan_rows catalog.now (select_seen select.now).joins 0 (plan_seen plan.now) (select_seen select.now).names)) }
{
    let joins = select.joins.as_slice();
    let rows = lines_of(alloc, plan.steps(), joins, select.names.as_slice(), catalog)?;
    let names = one_field(alloc, Text::from_str(alloc, "plan")?)?;
    counted_text(alloc, names.as_slice(), rows.as_slice())
}
