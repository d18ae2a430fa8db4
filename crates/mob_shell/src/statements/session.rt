//! The state of a run between its statements.
ghost use Rattle.std.specs.Prelude.{◌≡◌, ◌≤◌, [], length, IfOk, IfErr, OnErr, OnOk};
ghost use Rattle.mob_list.specs.Faults.{OnCause};
ghost use Rattle.mob_typed.specs.Selects.{select_seen};
ghost use Rattle.mob_typed.specs.Statements.{deletion, plan_of, query, statement_seen};
ghost use Rattle.mob_join.specs.TypedFor.{IsTypedFor};
ghost use Rattle.mob_shell.specs.Runs.{Stops, StatementWrites, StatementLeaves, begin, later_files, next_rows};
ghost use Rattle.mob_shell.specs.Session.{IsNoDelete, SessionCanRun, SessionRuns, StopsOn, session_terms, session_state};

use crate::statements::answers::{answered, explained};
use crate::statements::deleting::delete_kept;
use crate::statements::rows::{copy_of_columns, put_constants};
use mob_catalog::Catalog;
use mob_eval::QueryFault;
use mob_list::fault::Fault;
use mob_load::Program;
use mob_meaning::Terms;
use mob_outside::Gate;
use mob_typed::{TypedSelect, TypedStatement};
use mob_value::{Rows, Value};
use std::alloc::{AllocError, Global};
use std::collections::VecDeque;
use std::thread::Threads;

/// The state of a run: its tables, and the rows of the files for the COPY statements to come.
#[derive(Drop)]
pub struct Session {
    catalog: Catalog,
    files: VecDeque<Rows<Value>>,
    terms: Terms,
}

impl Session {
    /// A run before its first statement: no tables, the values of the script's literals, and the
    /// rows of its files.
    pub fn new(alloc: Global, program: Program, terms: Terms) -> Session
        ensures begins { session_state result ≡ begin program }
        ensures terms { session_terms result ≡ terms }
    {
        let Program { values, files } = program;
        Session {
            catalog: Catalog::new(alloc, values),
            files: VecDeque::from_vec(files.into_vec()),
            terms,
        }
    }

    // The rows of the next file.
    fn next_file(&mut self, alloc: Global) -> Rows<Value>
        ensures rows { result ≡ next_rows self.old.files.items }
        ensures left { self.new.files.items ≡ later_files self.old.files.items }
        ensures catalog { self.new.catalog ≡ self.old.catalog }
        ensures terms { self.new.terms ≡ self.old.terms }
    {
        match self.files.pop_front() {
            Some(rows) => rows,
            None => Rows::new(alloc),
        }
    }

    // The text of the answer of a query.
    fn answer<R: Threads + Sync, G: Gate>(
        &self,
        rt: &R,
        alloc: Global,
        select: &TypedSelect,
        workers: usize,
        gate: &G,
    ) -> Result<Vec<u8>, QueryFault>
        requires typed { IsTypedFor (session_state self.now).catalogue (select_seen select.now) }
        requires some { 1 ≤ workers }
        requires few { workers ≤ 64 }
        ensures text { IfOk result (λ text. StatementWrites (session_terms self.now) (session_state self.now) (query (select_seen select.now)) text.items) }
        ensures fault { IfErr result (OnCause (λ f. Stops (session_terms self.now) (session_state self.now) (query (select_seen select.now)) f)) }
    {
        answered(rt, alloc, select, &self.catalog, &self.terms, workers, gate)
    }

    // The text of the plan of a query. It has no fault of evaluation.
    fn explain(&self, alloc: Global, select: &TypedSelect) -> Result<Vec<u8>, QueryFault>
        ensures text { IfOk result (λ text. StatementWrites (session_terms self.now) (session_state self.now) (plan_of (select_seen select.now)) text.items) }
        ensures fault { IfErr result (OnCause (λ f. Stops (session_terms self.now) (session_state self.now) (plan_of (select_seen select.now)) f)) }
    {
        Ok(explained(alloc, select, &self.catalog)?)
    }

    // Deletes the rows for which the condition of a DELETE is true. It writes nothing. If it has a
    // fault or an allocation fails, no row is deleted.
    fn delete<R: Threads + Sync, G: Gate>(
        &mut self,
        rt: &R,
        alloc: Global,
        select: &TypedSelect,
        workers: usize,
        gate: &G,
    ) -> Result<Vec<u8>, QueryFault>
        requires typed { IsTypedFor (session_state self.old).catalogue (select_seen select.now) }
        requires one { length select.now.from ≡ 1 }
        requires some { 1 ≤ workers }
        requires few { workers ≤ 64 }
        ensures leaves { OnOk result (StatementLeaves (session_terms self.old) (session_state self.old) (deletion (select_seen select.now)) (session_state self.new)) }
        ensures text { IfOk result (λ text. text.items ≡ []) }
        ensures terms { OnOk result (session_terms self.new ≡ session_terms self.old) }
        ensures fault { IfErr result (OnCause (λ f. Stops (session_terms self.old) (session_state self.old) (deletion (select_seen select.now)) f)) }
        ensures unchanged { OnErr result (session_state self.new ≡ session_state self.old) }
    {
        delete_kept(
            rt,
            alloc,
            select,
            &mut self.catalog,
            &self.terms,
            workers,
            gate,
        )?;
        Ok(Vec::new(alloc))
    }

    // Runs a statement that makes or fills a table, or makes an index; other statements change
    // nothing here. `delete` runs a DELETE.
    fn change(&mut self, alloc: Global, statement: &TypedStatement) -> Result<(), AllocError>
        requires other { IsNoDelete (statement_seen statement.now) }
        ensures leaves { OnOk result (StatementLeaves (session_terms self.old) (session_state self.old) (statement_seen statement.now) (session_state self.new)) }
        ensures terms { OnOk result (session_terms self.new ≡ session_terms self.old) }
    {
        match statement {
            TypedStatement::CreateTable { columns, .. } => {
                let columns = copy_of_columns(alloc, columns.as_slice())?;
                self.catalog.create_table(columns)
            }
            TypedStatement::Insert { table, rows, .. } => {
                put_constants(alloc, &mut self.catalog, *table, rows.as_slice())
            }
            TypedStatement::Copy { table, .. } => {
                let rows = self.next_file(alloc);
                self.catalog.add_rows(*table, rows)
            }
            TypedStatement::CreateIndex {
                table,
                column,
                name,
            } => self.catalog.create_index(name.as_str(), *table, *column),
            TypedStatement::Delete(_) => unreachable!(),
            TypedStatement::Empty | TypedStatement::Select(_) | TypedStatement::Explain(_) => Ok(
                (),
            ),
        }
    }

    /// Runs one statement with `workers` workers, which pass the gate, and returns the text of its
    /// answer. The fault is that of its query, or a failed allocation.
    pub fn execute<R: Threads + Sync, G: Gate>(
        &mut self,
        rt: &R,
        alloc: Global,
        statement: &TypedStatement,
        workers: usize,
        gate: &G,
    ) -> Result<Vec<u8>, QueryFault>
        requires can { SessionCanRun self.old statement.now }
        requires some { 1 ≤ workers }
        requires few { workers ≤ 64 }
        ensures step { IfOk result (λ text. SessionRuns self.old statement.now self.new text.items) }
        ensures fault { IfErr result (OnCause (λ f. StopsOn self.old statement.now f)) }
    {
        match statement {
            TypedStatement::Select(select) => self.answer(rt, alloc, select, workers, gate),
            TypedStatement::Explain(select) => self.explain(alloc, select),
            TypedStatement::Delete(select) => self.delete(rt, alloc, select, workers, gate),
            _ => match self.change(alloc, statement) {
                Ok(()) => Ok(Vec::new(alloc)),
                Err(_) => Err(Fault::NoMemory),
            },
        }
    }
}
