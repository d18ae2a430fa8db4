//! The checks of a script, in written order.
ghost use Rattle.std.specs.Prelude.{◌≡◌, ◌++◌, ◌∷◌, [], List, IfOk, drop, map};
ghost use Rattle.mob_typed.specs.declared.typed.ConstText.{ConstText};
ghost use Rattle.mob_typed.specs.Statements.{script_seen, statement_seen};
ghost use Rattle.mob_load.specs.Checks.{CheckParts, Checkpoint, check_seen, checkpoint, bracket, checkpoints_of, stands_before, checks_up_to, in_order, checks_of};

use crate::check::Check;
use mob_typed::{ConstText, Typed, TypedStatement};
use std::alloc::{AllocError, Global};

// Whether a literal is before this place of this statement.
fn stands_before(literal: &ConstText, statement: u32, place: u32) -> bool
    ensures before { result ≡ stands_before literal.now statement place }
{
    literal.statement < statement || (literal.statement == statement && literal.place < place)
}

// Appends the literals from number `put` on before this place. Returns the number of the next one.
fn push_literals<'a>(
    done: &mut Vec<Check<'a>>,
    literals: &'a [ConstText],
    put: usize,
    statement: u32,
    place: u32,
) -> Result<usize, AllocError>
    ensures put { IfOk result (λ at. (next : List ConstText → List CheckParts) (check : CheckParts) →
        map check_seen done.new.items ++ check ∷ next (drop at literals.now) ≡ map check_seen done.old.items ++ checks_up_to next (checkpoint statement place check) (drop put literals.now)) }
{
    let mut at = put;
    while at < literals.len() {
        if !stands_before(&literals[at], statement, place) {
            return Ok(at);
        }
        done.push(Check::Literal(&literals[at]))?;
        at += 1;
    }
    Ok(at)
}

// Appends the literals from number `put` on before this place, then the check of this place.
// Returns the number of the next literal.
fn push_checkpoint<'a>(
    done: &mut Vec<Check<'a>>,
    literals: &'a [ConstText],
    put: usize,
    statement: u32,
    place: u32,
    check: Check<'a>,
) -> Result<usize, AllocError>
    ensures put { IfOk result (λ at. (next : List ConstText → List CheckParts) →
        map check_seen done.new.items ++ next (drop at literals.now) ≡ map check_seen done.old.items ++ checks_up_to next (checkpoint statement place (check_seen check.entry)) (drop put literals.now)) }
{
    let at = push_literals(done, literals, put, statement, place)?;
    done.push(check)?;
    Ok(at)
}

// Appends the brackets of an INSERT, each after the literals before it.
fn push_brackets<'a>(
    done: &mut Vec<Check<'a>>,
    literals: &'a [ConstText],
    put: usize,
    table: u32,
    statement: u32,
    places: &[u32],
) -> Result<usize, AllocError>
    ensures put { IfOk result (λ at. (ms : List Checkpoint) →
        map check_seen done.new.items ++ in_order ms (drop at literals.now) ≡ map check_seen done.old.items ++ in_order (map (bracket table statement) places.now ++ ms) (drop put literals.now)) }
{
    let mut at = put;
    for place in places {
        let bracket = Check::Room {
            table,
            statement,
            place: *place,
        };
        at = push_checkpoint(done, literals, at, statement, *place, bracket)?;
    }
    Ok(at)
}

// Appends the checkpoints of a statement, each after the literals before it.
fn push_statement<'a>(
    done: &mut Vec<Check<'a>>,
    literals: &'a [ConstText],
    put: usize,
    number: u32,
    statement: &'a TypedStatement,
) -> Result<usize, AllocError>
    ensures put { IfOk result (λ at. (ms : List Checkpoint) →
        map check_seen done.new.items ++ in_order ms (drop at literals.now) ≡ map check_seen done.old.items ++ in_order (checkpoints_of number (statement_seen statement.now) ++ ms) (drop put literals.now)) }
{
    match statement {
        TypedStatement::CreateTable { columns, .. } => {
            let table = Check::Table(columns.as_slice());
            push_checkpoint(done, literals, put, number, 0, table)
        }
        TypedStatement::Insert { table, places, .. } => {
            push_brackets(done, literals, put, *table, number, places.as_slice())
        }
        TypedStatement::Copy { table, file } => {
            let file = Check::File {
                table: *table,
                name: file,
            };
            push_checkpoint(done, literals, put, number, 0, file)
        }
        TypedStatement::Empty
        | TypedStatement::CreateIndex { .. }
        | TypedStatement::Delete(_)
        | TypedStatement::Select(_)
        | TypedStatement::Explain(_) => Ok(put),
    }
}

// Appends the remaining literals.
fn push_rest<'a>(
    done: &mut Vec<Check<'a>>,
    literals: &'a [ConstText],
    put: usize,
) -> Result<(), AllocError>
    ensures put { IfOk result (λ _. map check_seen done.new.items ≡ map check_seen done.old.items ++ in_order [] (drop put literals.now)) }
{
    let mut at = put;
    while at < literals.len() {
        done.push(Check::Literal(&literals[at]))?;
        at += 1;
    }
    Ok(())
}

/// The checks of this script before it runs, in written order. The only error is a failed
/// allocation.
pub fn checks_of(alloc: Global, typed: &Typed) -> Result<Vec<Check<'_>>, AllocError>
    ensures in_order { IfOk result (λ checks. map check_seen checks.items ≡ checks_of (script_seen typed.now)) }
{
    let literals = typed.consts.as_slice();
    let mut done = Vec::new(alloc);
    let mut put = 0;
    let mut number: u32 = 1;
    for statement in typed.statements.as_slice() {
        put = push_statement(&mut done, literals, put, number, statement)?;
        let Some(next) = number.checked_add(1) else {
            return Err(AllocError);
        };
        number = next;
    }
    push_rest(&mut done, literals, put)?;
    Ok(done)
}
