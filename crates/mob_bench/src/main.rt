//! Work to be timed from outside: operations on fractions, and searches for the nearest trips of a
//! table.
//!
//! The first three arguments are an operation (`add`, `subtract`, `multiply`, `divide` or
//! `compare`), a kind of operands (`whole` or `mixed`) and a count, 0 for none; the program prints
//! a checksum. Two more arguments, a method and a count, ask for the ten trips nearest to
//! `POINT(500 500)`: `near` uses a tree that is built once, and `scan` computes the approach of
//! each trip.
#![tactic(auto)]

mod fractions;
mod trips;

use mob_outside::StdSource;
use std::env;
use std::process::ExitCode;

const USAGE: &str =
    "usage: mob_bench add|subtract|multiply|divide|compare whole|mixed COUNT [near|scan COUNT < trips.csv]";

fn main(rt: HostRuntime) -> anyhow::Result<ExitCode> {
    let alloc = rt.alloc();
    let words: Vec<String> = env::args(&rt)?.skip(1).collect(alloc)?;
    if words.len() < 3 {
        println!(rt; "{USAGE}")?;
        return Ok(ExitCode::from(2));
    }
    let operation = fractions::operation_of(words[0].as_str());
    let kind = fractions::kind_of(words[1].as_str());
    let count = words[2].as_str().parse::<u64>().ok();
    let (Some(operation), Some(kind), Some(count)) = (operation, kind, count) else {
        println!(rt; "{USAGE}")?;
        return Ok(ExitCode::from(2));
    };
    let operands = fractions::operands(alloc, kind)?;
    println!(rt;
        "{}",
        fractions::checksum(operation, operands.as_slice(), count)
    )?;
    if words.len() == 3 {
        return Ok(ExitCode::SUCCESS);
    }
    if words.len() != 5 {
        println!(rt; "{USAGE}")?;
        return Ok(ExitCode::from(2));
    }
    let Some(count) = words[4].as_str().parse::<u64>().ok() else {
        println!(rt; "{USAGE}")?;
        return Ok(ExitCode::from(2));
    };
    let mut source = StdSource::new(rt.stdin());
    match trips::timed(alloc, &mut source, words[3].as_str(), count) {
        Ok((rows, trips)) => {
            println!(rt; "{rows} of {trips} trips")?;
            Ok(ExitCode::SUCCESS)
        }
        Err(status) => Ok(ExitCode::from(status)),
    }
}
