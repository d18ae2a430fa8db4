//! The outside of a run: the source of its script, the files that it reads, the sinks of its
//! answers and notes, and the gate that each of its workers passes. Whole texts are read and put
//! through the calls of these ends.
//!
//! Each end counts its faults, and a call fails only if the count rose. Ends in memory show their
//! contents to the proof; those over the streams and the folder of the process may be opaque.
#![tactic(auto)]

mod fault;
mod files;
mod gate;
mod putting;
mod reading;
mod sink;
mod source;

pub use fault::Failed;
pub use files::{DirFiles, Files, MemFiles};
pub use gate::{Gate, OpenGate};
pub use putting::{put_all, put_pieces};
pub use reading::{FileEnd, ReadEnd, read_file, read_opened, read_to};
pub use sink::{MemSink, Sink, StdSink};
pub use source::{MemSource, Source, StdSource, SteadySource};
