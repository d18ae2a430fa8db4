//! Resolves names of columns among the tables of FROM: the columns of a table, the tables that an
//! expression sees, and the reasons for which typing stops.
//!
//! It is apart from `mob_expression` so that its wrong body is tried on a small crate.
#![tactic(auto)]

pub mod column_list;
pub mod columns;
pub mod fault;
pub mod scope;
