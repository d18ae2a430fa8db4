//! Tests of what values over time and indexes are made of: fractions, spans and their sets, steady
//! courses, lists and texts, lines, the cells of linear functions, and trees of boxes.
#![tactic(auto)]

#[cfg(test)]
mod boxes;
#[cfg(test)]
mod cells;
#[cfg(test)]
mod courses;
#[cfg(test)]
mod found;
#[cfg(test)]
mod fractions;
#[cfg(test)]
mod grown;
#[cfg(test)]
mod lines;
#[cfg(test)]
mod sifted;
#[cfg(test)]
mod spans;
#[cfg(test)]
mod three;
#[cfg(test)]
mod walked;
