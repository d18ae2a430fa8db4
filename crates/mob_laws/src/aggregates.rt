//! Laws of the expressions and the aggregates of a typed query. No code runs here.
ghost use Rattle.mob_laws.specs.AggregateValues.{AggregateRowsHaveMeanings, RunColumnsHaveMeanings, TypedColumnsHaveMeanings};
ghost use Rattle.mob_laws.specs.ExpressionTypes.{RunExpressionsHaveTheirTypes, TypedExpressionsHaveTheirTypes};

/// Each value of each expression of a typed query is NULL or of the expression's type, on any rows
/// of its tables, with whole numbers if the type requires them. This holds for each query and each
/// DELETE of a run.
pub fn expressions_have_their_types()
    ensures typed { TypedExpressionsHaveTheirTypes }
    ensures runs { RunExpressionsHaveTheirTypes }
{
    mob_operands::laws::rows_have_meanings();
    mob_shell::laws::queries_are_typed();
}

/// Aggregates have meanings. An aggregate ignores no value of its argument but NULL, and its result
/// has the type that its row of the table gives. The result is NULL exactly if that is due: for a
/// count never, for a sum if each value is NULL, and for an aggregate over time if no value is
/// defined at any instant.
///
/// This holds for each column of a grouped query, on any tuples, also in a run: the values of its
/// argument are of the argument's type, and its own values are of the type that typing gives it.
pub fn aggregates_have_meanings()
    ensures rows { AggregateRowsHaveMeanings }
    ensures typed { TypedColumnsHaveMeanings }
    ensures runs { RunColumnsHaveMeanings }
{
    mob_meaning::laws::one_value();
    mob_shell::laws::queries_are_typed();
    expressions_have_their_types();
}
