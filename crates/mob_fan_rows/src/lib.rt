//! Tests of work that is divided among threads, for a work on a list of numbers, and tests of
//! streams and files on their own.
#![tactic(auto)]

#[cfg(test)]
mod divided;
pub mod gates;
pub mod numbers;
#[cfg(test)]
mod outside;
pub mod watched;
