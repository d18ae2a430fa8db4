//! Operations on fractions, to be timed.
use mob_frac::{Frac, Overflow};
use std::alloc::{AllocError, Global};
use std::cmp::Ordering;

/// An operation on two operands.
#[derive(Clone, Copy, Debug, PartialEq, Eq)]
pub enum Operation {
    Add,
    Subtract,
    Multiply,
    Divide,
    Compare,
}

/// Whole numbers, or numbers with denominators of up to 12 bits.
#[derive(Clone, Copy, Debug, PartialEq, Eq)]
pub enum Kind {
    Whole,
    Mixed,
}

/// The operation with this name.
pub fn operation_of(word: &str) -> Option<Operation> {
    match word {
        "add" => Some(Operation::Add),
        "subtract" => Some(Operation::Subtract),
        "multiply" => Some(Operation::Multiply),
        "divide" => Some(Operation::Divide),
        "compare" => Some(Operation::Compare),
        _ => None,
    }
}

/// The kind with this name.
pub fn kind_of(word: &str) -> Option<Kind> {
    match word {
        "whole" => Some(Kind::Whole),
        "mixed" => Some(Kind::Mixed),
        _ => None,
    }
}

// Knuth's linear congruential generator of 64 bits. Its upper bits are the more random ones.
fn next_state(state: u64) -> u64 {
    state
        .wrapping_mul(6364136223846793005)
        .wrapping_add(1442695040888963407)
}

/// How many operands are made.
pub const OPERANDS: usize = 1024;

/// The operands: numerators of up to 20 bits and a sign.
pub fn operands(alloc: Global, kind: Kind) -> Result<Vec<Frac>, AllocError> {
    let mut made = Vec::with_capacity(alloc, OPERANDS)?;
    let mut state = 1;
    for _ in 0..OPERANDS {
        state = next_state(state);
        let num = (state >> 44) as i64 - (1 << 19);
        state = next_state(state);
        let den = match kind {
            Kind::Whole => 1,
            Kind::Mixed => (state >> 52) as i64 + 1,
        };
        if let Ok(operand) = Frac::new(num, den) {
            made.push(operand)?;
        }
    }
    Ok(made)
}

// The checksum with both parts of one more result.
fn mixed_in(sum: u64, num: i64, den: i64) -> u64 {
    sum.wrapping_mul(31)
        .wrapping_add(num.cast_unsigned())
        .wrapping_mul(31)
        .wrapping_add(den.cast_unsigned())
}

fn result_of(operation: Operation, a: &Frac, b: &Frac) -> Result<Frac, Overflow> {
    match operation {
        Operation::Add => a.add(b),
        Operation::Subtract => a.sub(b),
        Operation::Multiply => a.mul(b),
        Operation::Divide => { if b.is_zero() { a.add(b) } else { a.div(b) } }
        Operation::Compare => match a.compare(b) {
            Ordering::Less => Frac::new(-1, 1),
            Ordering::Equal => Frac::new(0, 1),
            Ordering::Greater => Frac::new(1, 1),
        },
    }
}

/// The sum over `count` operations, each on two operands.
pub fn checksum(operation: Operation, operands: &[Frac], count: u64) -> u64 {
    let mut sum = 0;
    if operands.is_empty() {
        return sum;
    }
    for i in 0..count {
        let a = &operands[(i % operands.len() as u64) as usize];
        let b = &operands[(i.wrapping_mul(7).wrapping_add(3) % operands.len() as u64) as usize];
        sum = match result_of(operation, a, b) {
            Ok(result) => mixed_in(sum, result.num(), result.den()),
            Err(Overflow) => sum.wrapping_add(1),
        };
    }
    sum
}
