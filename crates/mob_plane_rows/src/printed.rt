//! Compares answers with the expected ones: NULL if there is no answer, or the name of the formula
//! if a part of it does not fit.

use mob_frac::Frac;
use mob_list::fault::Fault;
use mob_literal::write_field;
use mob_scalar::Epoch;
use mob_slice::{Formula, Moving, PlaneLine};
use mob_value::Value;
use std::alloc::{AllocError, Global};

fn name(formula: Formula) -> &'static str {
    match formula {
        Formula::F1 => "F1",
        Formula::F2 => "F2",
        Formula::F3 => "F3",
        Formula::F4 => "F4",
        Formula::F5 => "F5",
        Formula::F6 => "F6",
        Formula::F7 => "F7",
        Formula::Given => "given",
    }
}

fn is_printed(alloc: Global, value: &Value, wanted: &str) -> bool {
    let mut into = String::new(alloc);
    write_field(value, &Epoch::standard(), &mut into).is_ok() && into.as_str() == wanted
}

// Whether the fault names that formula.
fn is_fault(fault: &Fault<Formula>, wanted: &str) -> bool {
    match fault {
        Fault::Because(formula) => wanted == name(*formula),
        Fault::NoMemory => false,
    }
}

pub fn is_left(
    alloc: Global,
    answer: Result<Option<Moving<PlaneLine>>, Fault<Formula>>,
    wanted: &str,
) -> bool {
    match answer {
        Ok(Some(trip)) => is_printed(alloc, &Value::MovingPoint(trip), wanted),
        Ok(None) => wanted == "NULL",
        Err(fault) => is_fault(&fault, wanted),
    }
}

pub fn is_settled(answer: Result<bool, Fault<Formula>>, wanted: &str) -> bool {
    match answer {
        Ok(true) => wanted == "t",
        Ok(false) => wanted == "f",
        Err(fault) => is_fault(&fault, wanted),
    }
}

pub fn is_decision(answer: Result<Option<bool>, Formula>, wanted: &str) -> bool {
    match answer {
        Ok(Some(true)) => wanted == "t",
        Ok(Some(false)) => wanted == "f",
        Ok(None) => wanted == "NULL",
        Err(passed) => wanted == name(passed),
    }
}

pub fn is_answer(alloc: Global, answer: Result<Option<Frac>, Formula>, wanted: &str) -> bool {
    match answer {
        Ok(Some(number)) => is_printed(alloc, &Value::Number(number), wanted),
        Ok(None) => wanted == "NULL",
        Err(passed) => wanted == name(passed),
    }
}

pub fn is_decided(answer: Result<Option<bool>, AllocError>, wanted: &str) -> bool {
    match answer {
        Ok(Some(true)) => wanted == "t",
        Ok(Some(false)) => wanted == "f",
        Ok(None) => wanted == "NULL",
        Err(_) => false,
    }
}

pub fn is_given(alloc: Global, answer: Result<Option<Frac>, Fault<Formula>>, wanted: &str) -> bool {
    match answer {
        Ok(Some(number)) => is_printed(alloc, &Value::Number(number), wanted),
        Ok(None) => wanted == "NULL",
        Err(fault) => is_fault(&fault, wanted),
    }
}
