//! Tests of numbers of any size: sums, products, quotients, squares, order, lines and roots beyond
//! 62 bits.
#![tactic(auto)]

#[cfg(test)]
mod rows;
