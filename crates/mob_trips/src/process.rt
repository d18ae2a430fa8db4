//! The arguments of a program.
use crate::TripsEnding;
use std::alloc::{Alloc, Global};
use std::env;
use std::io::ErrorKind;
use std::rt::Env;

/// The arguments of the process, the first of which is the program's name. Without them a run ends:
/// with `Usage` if one is not UTF-8, and with `NoMemory` if an allocation fails.
pub fn arguments<R: Env + Alloc<A = Global>>(rt: &R) -> Result<Vec<String>, TripsEnding> {
    match env::args(rt) {
        Ok(args) => args.collect(rt.alloc()).map_err(|_| TripsEnding::NoMemory),
        Err(error) if error.kind() == ErrorKind::OutOfMemory => Err(TripsEnding::NoMemory),
        Err(_) => Err(TripsEnding::Usage),
    }
}
