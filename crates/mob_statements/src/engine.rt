//! Runs statements one after another, and writes the text of each answer.
ghost use Rattle.std.specs.Prelude.{◌≤◌, IfOk, IfErr, OnOk};
ghost use Rattle.mob_outside.specs.EndsSeen.{stream_seen};
ghost use Rattle.mob_list.specs.Faults.{OnCause};
ghost use Rattle.mob_ending.specs.declared.ending.Ending.TheVariants.{Done};
ghost use Rattle.mob_statements.specs.Calls.{CallCanRun, CallRuns, CallStops};
ghost use Rattle.mob_statements.specs.Statements.{CanRunEach, StatementsEnd, EndsByFault};

use mob_ending::Ending;
use mob_eval::QueryFault;
use mob_list::fault::Fault;
use mob_outside::{Sink, put_all};
use std::alloc::Global;

/// Runs all statements by calls of `execute`, and writes each answer before the next statement
/// runs. If all ran, the state is as the last one left it. Each statement must be able to run in
/// every state to which those before it may lead. The ending is `Done`, the fault of a statement, a
/// fault of `out`, or out of memory.
pub fn run_all<S, X, F: Fn(Global, &mut S, &X) -> Result<Vec<u8>, QueryFault>, K: Sink>(
    alloc: Global,
    state: &mut S,
    statements: &[X],
    out: &mut K,
    execute: &F,
) -> Ending
    requires can { CanRunEach (CallRuns F.Fn execute.now) (CallCanRun F.Fn execute.now) state.old statements.now }
    ensures ends { StatementsEnd (CallRuns F.Fn execute.now) (CallStops F.Fn execute.now) state.old state.new statements.now (stream_seen K.held K.faults out.old out.new) result }
    ensures later { K.faults out.old ≤ K.faults out.new }
{
    match run_each(alloc, state, statements, out, execute) {
        Ok(()) => Ending::Done,
        Err(ending) => ending,
    }
}

// Runs the statements one after another. The error is the ending at the first one that fails, or
// whose answer cannot be written.
fn run_each<S, X, F: Fn(Global, &mut S, &X) -> Result<Vec<u8>, QueryFault>, K: Sink>(
    alloc: Global,
    state: &mut S,
    statements: &[X],
    out: &mut K,
    execute: &F,
) -> Result<(), Ending>
    requires can { CanRunEach (CallRuns F.Fn execute.now) (CallCanRun F.Fn execute.now) state.old statements.now }
    ensures all { OnOk result (StatementsEnd (CallRuns F.Fn execute.now) (CallStops F.Fn execute.now) state.old state.new statements.now (stream_seen K.held K.faults out.old out.new) Done) }
    ensures ends { IfErr result (StatementsEnd (CallRuns F.Fn execute.now) (CallStops F.Fn execute.now) state.old state.new statements.now (stream_seen K.held K.faults out.old out.new)) }
    ensures later { K.faults out.old ≤ K.faults out.new }
{
    let mut number: u32 = 1;
    for statement in statements {
        let text = match run_one(alloc, state, statement, execute) {
            Ok(text) => text,
            Err(fault) => return Err(ended_by(number, fault)),
        };
        match put_all(out, &text) {
            Ok(()) => {}
            Err(_) => return Err(Ending::WriteFault),
        }
        let Some(next) = number.checked_add(1) else {
            return Err(Ending::NoMemory);
        };
        number = next;
    }
    Ok(())
}

// Runs one statement, and returns the text of its answer.
fn run_one<S, X, F: Fn(Global, &mut S, &X) -> Result<Vec<u8>, QueryFault>>(
    alloc: Global,
    state: &mut S,
    statement: &X,
    execute: &F,
) -> Result<Vec<u8>, QueryFault>
    requires can { CallCanRun F.Fn execute.now state.old statement.now }
    ensures step { IfOk result (λ text. CallRuns F.Fn execute.now state.old statement.now state.new text.items) }
    ensures fault { IfErr result (OnCause (λ f. CallStops F.Fn execute.now state.old statement.now f)) }
{
    execute(alloc, state, statement)
}

// The ending for this fault of the statement of this number.
fn ended_by(statement: u32, fault: QueryFault) -> Ending
    ensures end { EndsByFault statement fault result }
{
    match fault {
        Fault::Because((rows, (place, formula))) => Ending::Overflow {
            statement,
            rows,
            place,
            formula,
        },
        Fault::NoMemory => Ending::NoMemory,
    }
}
