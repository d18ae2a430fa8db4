//! Tests of what no script reaches in a query: expressions that are not typed, and each fault of a
//! constant.
#![tactic(auto)]

#[cfg(test)]
mod constants;
#[cfg(test)]
mod untyped;
