//! The aggregates of grouped queries, with the types that they take and give.
ghost use Rattle.std.specs.Prelude.{◌≡◌};
ghost use Rattle.mob_operators.specs.Aggregates.{only_of, aggregate_named, aggregate_type, is_aggregate, aggregate_row};

use crate::lookup::has_type;
use crate::table::{NUMBER, TBOOL, TEMPORAL, TNUMBER};
use mob_ast::SqlType;

/// An aggregate of a grouped query, over the values of its argument in a group.
#[derive(Clone, Copy, Debug, PartialEq, Eq)]
pub enum AggKind {
    /// `count(*)`: the number of rows.
    CountAll,
    /// count: the number of values other than NULL.
    Count,
    /// sum: the sum of the values.
    Sum,
    /// tCount: at each instant, the number of values that are defined there.
    TCount,
    /// tSum: at each instant, the sum of the values that are defined there.
    TSum,
    /// tAnd: at each instant, whether all values that are defined there are true.
    TAnd,
    /// tOr: at each instant, whether any value that is defined there is true.
    TOr,
}

// This type, if it is one of these.
fn only_of(class: &[SqlType], ty: SqlType) -> Option<SqlType>
    ensures same { result ≡ only_of class.now ty }
{
    if has_type(class, ty) { Some(ty) } else { None }
}

// The aggregate with this name.
fn aggregate_named(name: &str) -> Option<AggKind>
    ensures named { result ≡ aggregate_named name.now }
{
    if name == "count" {
        return Some(AggKind::Count);
    }
    if name == "sum" {
        return Some(AggKind::Sum);
    }
    if name == "tcount" {
        return Some(AggKind::TCount);
    }
    if name == "tsum" {
        return Some(AggKind::TSum);
    }
    if name == "tand" {
        return Some(AggKind::TAnd);
    }
    if name == "tor" {
        return Some(AggKind::TOr);
    }
    None
}

impl AggKind {
    // The type of its result for an argument of this type; `None` if it does not take the type.
    fn result_type(self, ty: SqlType) -> Option<SqlType>
        ensures row { result ≡ aggregate_type self ty }
    {
        match self {
            AggKind::CountAll | AggKind::Count => Some(SqlType::Int),
            AggKind::Sum => only_of(NUMBER, ty),
            AggKind::TCount => only_of(TEMPORAL, ty).map(|_| SqlType::TInt),
            AggKind::TSum => only_of(TNUMBER, ty),
            AggKind::TAnd | AggKind::TOr => only_of(TBOOL, ty),
        }
    }
}

/// Whether this is the name of an aggregate, in lower case.
pub fn is_aggregate(name: &str) -> bool
    ensures known { result ≡ is_aggregate name.now }
{
    aggregate_named(name).is_some()
}

/// The aggregate with this name, in lower case, and the type of its result for an argument of this
/// type. `None` if no aggregate has the name, or it does not take the type. `count(*)` has no name
/// here.
pub fn aggregate_row(name: &str, ty: SqlType) -> Option<(AggKind, SqlType)>
    ensures row { result ≡ aggregate_row name.now ty }
{
    let kind = aggregate_named(name)?;
    let result_type = kind.result_type(ty)?;
    Some((kind, result_type))
}
