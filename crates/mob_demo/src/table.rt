//! The table file of the demo.
ghost use Rattle.std.specs.Prelude.{◌≡◌, ◌<◌, ◌≤◌, ◌++◌, decimal, IfOk, OnOk, string_bytes};
ghost use Rattle.mob_scalar.specs.MomentText.{padded};
ghost use Rattle.mob_demo.specs.Demo.{demo_file_text, line_text, minute_text, position_text, positions_text, trip_text};

use crate::places::{x_of, y_of};
use itoa::Buffer;
use std::alloc::{AllocError, Global};

// How many minutes a trip has, from 0.
const MINUTES: u32 = 61;

/// The bytes of `demo.csv` with `ships` ships. The only error is a failed allocation.
#[tactic(auto, using(crate::proofs::Lines::no_line_yet, crate::proofs::Lines::all_lines))]
pub fn demo_file(alloc: Global, ships: u32) -> Result<String, AllocError>
    requires few { ships ≤ 1000 }
    ensures bytes { IfOk result (λ file. string_bytes file ≡ demo_file_text ships) }
{
    let mut file = String::from_str(alloc, "id,trip\n")?;
    for ship in 1..ships + 1 {
        push_line(ship, &mut file)?;
    }
    Ok(file)
}

// Adds the line of a ship.
#[tactic(auto, unfolding(crate::specs::Demo::line_text))]
fn push_line(ship: u32, into: &mut String) -> Result<(), AllocError>
    requires ships { ship ≤ 1000 }
    ensures line { OnOk result (string_bytes into.new ≡ string_bytes into.old ++ line_text ship) }
{
    push_number(ship, into)?;
    into.push_str(",\"")?;
    push_trip(ship, into)?;
    into.push_str("\"\n")
}

// Adds the trip of a ship: its position at each minute.
#[tactic(auto, unfolding(crate::specs::Demo::trip_text))]
fn push_trip(ship: u32, into: &mut String) -> Result<(), AllocError>
    requires ships { ship ≤ 1000 }
    ensures trip { OnOk result (string_bytes into.new ≡ string_bytes into.old ++ trip_text ship) }
{
    into.push_str("[")?;
    push_positions(ship, into)?;
    into.push_str("]")
}

// Adds the positions of a ship, with commas between them.
#[tactic(auto, using(crate::proofs::Positions::all_positions))]
fn push_positions(ship: u32, into: &mut String) -> Result<(), AllocError>
    requires ships { ship ≤ 1000 }
    ensures positions { OnOk result (string_bytes into.new ≡ string_bytes into.old ++ positions_text ship) }
{
    push_position(ship, 0, into)?;
    for minute in 1..MINUTES {
        into.push_str(", ")?;
        push_position(ship, minute, into)?;
    }
    Ok(())
}

// Adds the position of a ship at a minute.
#[tactic(auto, unfolding(crate::specs::Demo::position_text))]
fn push_position(ship: u32, minute: u32, into: &mut String) -> Result<(), AllocError>
    requires ships { ship ≤ 1000 }
    requires minutes { minute ≤ 60 }
    ensures position { OnOk result (string_bytes into.new ≡ string_bytes into.old ++ position_text ship minute) }
{
    into.push_str("POINT(")?;
    push_number(x_of(ship, minute), into)?;
    into.push_str(" ")?;
    push_number(y_of(ship, minute), into)?;
    into.push_str(")@")?;
    push_minute(minute, into)
}

// Adds the moment of a minute.
fn push_minute(minute: u32, into: &mut String) -> Result<(), AllocError>
    requires minutes { minute ≤ 60 }
    ensures moment { OnOk result (string_bytes into.new ≡ string_bytes into.old ++ minute_text minute) }
{
    into.push_str("2001-01-01 ")?;
    push_two_digits(minute / 60, into)?;
    into.push_str(":")?;
    push_two_digits(minute % 60, into)?;
    into.push_str(":00+00")
}

// Adds a number below 100 in two digits.
#[tactic(auto, using(crate::proofs::Digits::two_padded))]
fn push_two_digits(n: u32, into: &mut String) -> Result<(), AllocError>
    requires small { n < 100 }
    ensures digits { OnOk result (string_bytes into.new ≡ string_bytes into.old ++ padded 2 n) }
{
    if n < 10 {
        into.push_str("0")?;
        return push_number(n, into);
    }
    push_number(n, into)
}

// Adds a number.
fn push_number(n: u32, into: &mut String) -> Result<(), AllocError>
    ensures digits { OnOk result (string_bytes into.new ≡ string_bytes into.old ++ decimal n) }
{
    let mut digits = Buffer::new();
    into.push_str(digits.format(n))
}
