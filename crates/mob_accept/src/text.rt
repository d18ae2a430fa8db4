//! Judges a script as a text: length, characters, tokens, grammar, names and types.
ghost use Rattle.std.specs.Prelude.{◌≡◌, IfOk, IfErr, List};
ghost use Rattle.mob_ast.specs.Trees.{script_of};
ghost use Rattle.mob_typed.specs.Statements.{ScriptOut, script_seen};
ghost use Rattle.mob_ast.specs.Trees.{StatementParts};
ghost use Rattle.mob_accept.specs.Accepts.{HasTrees, IsAccepted, IsAcceptRefusal, script_limit};

use mob_ast::{Kind, Refusal, Script};
use mob_parse::script::parse;
use mob_typed::Typed;
use mob_typing::type_script;
use std::alloc::Global;

/// The greatest length of a script, in bytes.
pub const SCRIPT_LIMIT: usize = 4_194_304;

// The refusal of a text that is longer than `SCRIPT_LIMIT`.
fn too_long() -> Refusal
    ensures says { result ≡ record { kind = Kind.Limit; statement = 1; place = script_limit } }
{
    Refusal {
        kind: Kind::Limit,
        statement: 1,
        place: 4_194_304,
    }
}

// The trees of a text, or why it has none.
fn trees_of(alloc: Global, bytes: &[u8]) -> Result<Script, Refusal>
    ensures read { IfOk result (λ s. HasTrees bytes.now (script_of s)) }
    ensures only { IfOk result (λ s. (x : List StatementParts) → HasTrees bytes.now x → x ≡ script_of s) }
    ensures refused { IfErr result (IsAcceptRefusal bytes.now) }
{
    if bytes.len() > SCRIPT_LIMIT {
        return Err(too_long());
    }
    parse(alloc, bytes)
}

/// Judges a script as a text: its length, its characters, tokens and grammar, its names and types.
/// Returns the typed script, or the first refusal in this order.
///
/// The place of a refusal is in bytes from 0. A text longer than 4,194,304 bytes is refused with
/// `Limit` at place 4,194,304 of statement 1. The other refusals are those of `parse` and
/// `type_script`. If an allocation fails, the refusal is `NoMemory` with statement 0 and place 0.
pub fn accept(alloc: Global, bytes: &[u8]) -> Result<Typed, Refusal>
    ensures accepted { IfOk result (λ t. IsAccepted bytes.now (script_seen t)) }
    ensures only { IfOk result (λ t. (o : ScriptOut) → IsAccepted bytes.now o → o ≡ script_seen t) }
    ensures refused { IfErr result (IsAcceptRefusal bytes.now) }
{
    let script = trees_of(alloc, bytes)?;
    type_script(alloc, script)
}
