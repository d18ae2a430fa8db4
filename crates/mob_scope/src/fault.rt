//! The reasons for which typing stops.
ghost use Rattle.mob_scope.specs.Answers.{AnswersAs, unless};

use mob_ast::Kind;
use mob_list::fault::Fault;

/// What is wrong with a script.
#[derive(Clone, Copy)]
pub struct Mistake {
    /// What is wrong.
    pub kind: Kind,
    /// The place, in bytes from 0.
    pub place: u32,
}

/// Refuses with this kind at this place if the test holds.
pub fn unless(test: bool, kind: Kind, place: u32) -> Result<(), Fault<Mistake>>
    ensures refused { AnswersAs (λ u. u) result (unless test kind place) }
{
    if test {
        return Err(Fault::Because(Mistake { kind, place }));
    }
    Ok(())
}
