//! Tests of texts of values, as a table, and of calls on values over time: those that no script
//! reaches, and unions of values.
#![tactic(auto)]

#[cfg(test)]
mod moving;
#[cfg(test)]
mod texts;
#[cfg(test)]
mod together;
