//! Tests of scripts before they run, as tables: their tokens and trees, the table of operators, and
//! types. Which scripts are refused is in `checks/rows`.
#![tactic(auto)]

#[cfg(test)]
mod operators;
#[cfg(test)]
mod shown;
#[cfg(test)]
mod tokens;
#[cfg(test)]
mod trees;
#[cfg(test)]
mod types;
