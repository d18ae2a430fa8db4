//! The columns of the answer of a grouped query.
ghost use Rattle.std.specs.Prelude.{◌≡◌, Ok, Err, IfOk, IfErr, map};
ghost use Rattle.mob_typed.specs.Trees.{typed_of};
ghost use Rattle.mob_typed.specs.Selects.{output_of};
ghost use Rattle.mob_eval.specs.Views.{scene_of};
ghost use Rattle.mob_list.specs.Faults.{OnCause};
ghost use Rattle.mob_value.specs.Held.{held};
ghost use Rattle.mob_tail.specs.Groups.{is_bare_column, column_on};
ghost use Rattle.mob_tail.specs.GroupedAnswers.{agg_at, columns_from, IsArgumentOf};
ghost use Rattle.mob_tail.specs.GroupSteps.{column_seen};

use mob_eval::{Held, View, held_value};
use mob_list::fault::Fault;
use mob_list::text::Text;
use mob_operators::AggKind;
use mob_outcome::fault::EvalFault;
use mob_typed::{Agg, TExpr};
use mob_value::Value;
use std::alloc::{AllocError, Global};

/// A column of the answer: its expression, and the aggregate over it, if it is one.
#[derive(Clone, Copy)]
pub struct Column<'a> {
    pub expression: &'a TExpr,
    pub agg: Option<Agg>,
}

// The aggregate over the expression of this number.
fn agg_at(aggs: &[Option<Agg>], number: usize) -> Option<Agg>
    ensures agg { result ≡ agg_at aggs.now number }
{
    match aggs.get(number) {
        Some(agg) => *agg,
        None => None,
    }
}

/// The columns of the answer in order.
pub fn columns_of<'a>(
    alloc: Global,
    items: &'a [(TExpr, Text)],
    aggs: &[Option<Agg>],
) -> Result<Vec<Column<'a>>, AllocError>
    ensures columns { IfOk result (λ columns. map column_seen columns.items ≡ columns_from aggs.now 0 (map output_of items.now)) }
{
    let mut columns = Vec::with_capacity(alloc, items.len())?;
    for (number, item) in items.iter().enumerate() {
        columns.push(Column {
            expression: &item.0,
            agg: agg_at(aggs, number),
        })?;
    }
    Ok(columns)
}

/// Whether there are no operands.
pub fn is_bare(operands: &[TExpr]) -> bool
    ensures bare { result ≡ is_bare_column operands.now }
{
    match operands.first() {
        None => true,
        Some(_) => false,
    }
}

/// The value of a column of a table on a tuple; NULL for an expression with operands. The only
/// error is a failed allocation.
pub fn column_on<'a>(alloc: Global, e: &TExpr, view: &View<'a>) -> Result<Held<'a>, AllocError>
    ensures value { IfOk result (λ h. held h ≡ column_on (scene_of view.now) (typed_of e.now)) }
{
    if !is_bare(e.args.as_slice()) {
        return Ok(Held::Made(Value::Null));
    }
    match held_value(alloc, e, view) {
        Ok(held) => Ok(held),
        Err(Fault::NoMemory) => Err(AllocError),
        Err(Fault::Because(_)) => unreachable!(),
    }
}

/// The argument of an aggregate on a tuple. That of count(*) is not evaluated.
pub fn argument_on<'a>(
    alloc: Global,
    kind: AggKind,
    e: &TExpr,
    view: &View<'a>,
) -> Result<Held<'a>, EvalFault>
    ensures value { IfOk result (λ h. IsArgumentOf kind (scene_of view.now) (typed_of e.now) (Ok (held h))) }
    ensures fault { IfErr result (OnCause (λ f. IsArgumentOf kind (scene_of view.now) (typed_of e.now) (Err f))) }
{
    match kind {
        AggKind::CountAll => Ok(Held::Made(Value::Null)),
        _ => held_value(alloc, e, view),
    }
}
