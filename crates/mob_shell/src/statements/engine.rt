//! Runs statements one after another, and writes the text of each answer.
ghost use Rattle.std.specs.Prelude.{◌≤◌, IfErr, IfOk};
ghost use Rattle.mob_outside.specs.EndsSeen.{stream_seen};
ghost use Rattle.mob_list.specs.Faults.{OnCause};
ghost use Rattle.mob_statements.specs.Statements.{CanAllRun, StatementsEnd};
ghost use Rattle.mob_shell.specs.Session.{SessionCanRun, SessionRuns, StopsOn};

use crate::statements::Session;
use mob_ending::Ending;
use mob_eval::QueryFault;
use mob_outside::{Gate, Sink};
use mob_statements::run_all;
use mob_typed::TypedStatement;
use std::alloc::Global;
use std::thread::Threads;

/// Runs all statements with `workers` workers, which pass the gate, and writes each answer before
/// the next statement runs. If all ran, the session is as the last one left it. Each statement must
/// be able to run in every state that those before it may leave. The ending is `Done`, the fault of
/// a statement, a fault of `out`, or out of memory.
pub fn run_session<R: Threads + Sync, K: Sink, G: Gate>(
    rt: &R,
    alloc: Global,
    session: &mut Session,
    statements: &[TypedStatement],
    out: &mut K,
    workers: usize,
    gate: &G,
) -> Ending
    requires can { CanAllRun SessionRuns SessionCanRun session.old statements.now }
    requires some { 1 ≤ workers }
    requires few { workers ≤ 64 }
    ensures ends { StatementsEnd SessionRuns StopsOn session.old session.new statements.now (stream_seen K.held K.faults out.old out.new) result }
    ensures later { K.faults out.old ≤ K.faults out.new }
{
    let execute = |alloc: Global, session: &mut Session, statement: &TypedStatement| -> Result<
        Vec<u8>,
        QueryFault,
    >
        requires can { SessionCanRun session.old statement.now }
        requires some { 1 ≤ workers }
        requires few { workers ≤ 64 }
        ensures step { IfOk result (λ text. SessionRuns session.old statement.now session.new text.items) }
        ensures fault { IfErr result (OnCause (λ f. StopsOn session.old statement.now f)) }
    { session.execute(rt, alloc, statement, workers, gate) };
    run_all(alloc, session, statements, out, &execute)
}
