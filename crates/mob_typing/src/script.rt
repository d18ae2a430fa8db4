//! Types whole scripts.
ghost use Rattle.std.specs.Prelude.{◌≡◌, [], Ok, map, IfOk, IfErr};
ghost use Rattle.mob_ast.specs.Trees.{statement_of, script_of};
ghost use Rattle.mob_expression.specs.Steps.{TypesTo};
ghost use Rattle.mob_typed.specs.Statements.{script_seen};
ghost use Rattle.mob_typing.specs.Statements.{made_seen, typed_statement, typed_from, typed_script, IsTypingRefusal, refusal_of};

use crate::names::Names;
use crate::rows::{copied, inserted};
use crate::select::{deleted, explained, selected};
use crate::tables::{made_index, made_table};
use mob_ast::{Kind, Refusal, Script, Statement};
use mob_list::fault::Fault;
use mob_list::items::Items;
use mob_scope::fault::Mistake;
use mob_typed::{ConstText, Typed, TypedStatement};
use std::alloc::Global;

// Types a statement. Returns it, or its first mistake.
#[tactic(auto, unfolding(crate::specs::Statements::typed_statement))]
fn type_statement(
    alloc: Global,
    number: u32,
    names: &mut Names,
    consts: &mut Items<ConstText>,
    statement: &Statement,
) -> Result<TypedStatement, Fault<Mistake>>
    ensures typed { TypesTo (made_seen names.new) result consts.new (typed_statement number names.old (statement_of statement.now) consts.old) }
{
    match statement {
        Statement::Empty => Ok(TypedStatement::Empty),
        Statement::CreateTable { name, columns } => made_table(alloc, names, name, columns),
        Statement::CreateIndex {
            name,
            table,
            column,
        } => made_index(alloc, names, name, table, column),
        Statement::Insert { table, rows } => inserted(alloc, number, names, consts, table, rows),
        Statement::Copy {
            table,
            file,
            delimiter,
        } => copied(alloc, names, table, file, delimiter),
        Statement::Delete { table, cond } => deleted(alloc, number, names, consts, table, cond),
        Statement::Select(select) => selected(alloc, number, names, consts, select),
        Statement::Explain(select) => explained(alloc, number, names, consts, select),
    }
}

// The refusal of the statement with this number.
fn refusal_of(fault: Fault<Mistake>, statement: u32) -> Refusal
    ensures placed { result ≡ refusal_of fault statement }
{
    match fault {
        Fault::Because(Mistake { kind, place }) => Refusal {
            kind,
            statement,
            place,
        },
        Fault::NoMemory => Refusal {
            kind: Kind::NoMemory,
            statement: 0,
            place: 0,
        },
    }
}

// Types the statements in order, numbered from 1.
fn typed_statements(
    alloc: Global,
    names: &mut Names,
    statements: &[Statement],
) -> Result<Typed, Refusal>
    ensures typed { IfOk result (λ t. typed_from 1 names.old (map statement_of statements.now) [] ≡ Ok (script_seen t)) }
    ensures first_refusal { IfErr result (λ e. IsTypingRefusal e (typed_from 1 names.old (map statement_of statements.now) [])) }
{
    let mut consts = Items::new(alloc);
    let mut done = Items::new(alloc);
    let mut number: u32 = 1;
    for statement in statements {
        match type_statement(alloc, number, names, &mut consts, statement) {
            Ok(typed) => done.push(typed)?,
            Err(fault) => return Err(refusal_of(fault, number)),
        }
        let Some(next) = number.checked_add(1) else {
            return Err(refusal_of(Fault::NoMemory, number));
        };
        number = next;
    }
    Ok(Typed {
        statements: done,
        consts,
    })
}

/// Types a script. Returns it with its constants in written order, each with its type, text,
/// statement and place; or the first refusal.
///
/// The refusals are `UnknownName`, `Duplicate`, `NoSuchOperator`, `LinearProduct`, `Irrational`,
/// `ZeroDivisor`, `BadCount` and `Limit`, statement by statement. In a statement the tables of FROM
/// or the target table come first, then the rest in the order of places, with operands before their
/// operator. `NoMemory`, with statement 0 and place 0, if an allocation fails.
pub fn type_script(alloc: Global, script: Script) -> Result<Typed, Refusal>
    ensures typed { IfOk result (λ t. typed_script (script_of script) ≡ Ok (script_seen t)) }
    ensures first_refusal { IfErr result (λ e. IsTypingRefusal e (typed_script (script_of script))) }
{
    let mut names = Names::new(alloc);
    typed_statements(alloc, &mut names, script.statements.as_slice())
}
