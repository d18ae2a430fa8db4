//! Laws of remembered outcomes: which rows of a tuple decide the outcome of an expression, and that
//! remembered outcomes can replace operators. No code runs here.
ghost use Rattle.mob_meaning.specs.Depends.{OutcomesDepend, RowsDecide};
ghost use Rattle.mob_meaning.specs.Recalls.{RecallsAgree, RecallsFollow};

/// The outcome of an expression, its value or its fault, depends only on the rows of a tuple at the
/// places that it names.
pub fn outcomes_depend_on_rows()
    ensures same { OutcomesDepend }
    ensures one_row { RowsDecide }
{}

/// Evaluation that recalls the outcomes of some operators instead of evaluating them has the
/// outcome of plain evaluation, and has one exactly if plain evaluation has one.
pub fn recalls_agree()
    ensures sound { RecallsAgree }
    ensures complete { RecallsFollow }
{
    crate::laws::one_outcome();
}
