//! Streams and files on their own: in memory, and over a reader and a writer.

use mob_outside::{Failed, Files, MemFiles, MemSink, Sink, Source, StdSink, StdSource};
use std::alloc::{AllocError, Global};

// The second call fails; the others take at most 4 bytes.
fn takes_a_step(sink: &mut MemSink) -> bool {
    sink.put(b"abcdef") == Ok(4)
        && sink.put(b"ef") == Err(Failed)
        && sink.taken() == b"abcd".as_slice()
        && sink.put(b"ef") == Ok(2)
        && sink.taken() == b"abcdef".as_slice()
}

fn sink(alloc: Global) -> Result<MemSink, AllocError> {
    Ok(MemSink::new(alloc, vec![in alloc; 2]?, 4))
}

#[test]
fn a_sink_takes_a_step_fails_and_goes_on(rt: HostRuntime) {
    match sink(rt.alloc()) {
        Ok(mut sink) => assert!(rt; takes_a_step(&mut sink)),
        Err(_) => assert!(rt; false),
    }
}

// A file is opened and read in steps of 2 bytes; a missing name is a fault, and is recorded too.
fn are_opened(files: &mut MemFiles) -> bool {
    let mut bytes = [0u8; 4];
    files.open("t.csv") == Ok(())
        && files.take(&mut bytes) == Ok(2)
        && files.open("u.csv") == Err(Failed)
        && files.asked().len() == 2
        && bytes[..2] == b"ab"[..2]
}

fn files(alloc: Global) -> Result<MemFiles, AllocError> {
    let file = (String::from_str(alloc, "t.csv")?, b"abc".to_vec(alloc)?);
    Ok(MemFiles::new(alloc, vec![in alloc; file]?, Vec::new(alloc), 2))
}

// The adapters move bytes.
fn are_moved(alloc: Global) -> bool {
    let mut source = StdSource::new(b"abc".as_slice());
    let mut sink = StdSink::new(Vec::new(alloc));
    let mut pair = [0u8; 2];
    source.take(&mut pair) == Ok(2)
        && sink.put(&pair) == Ok(2)
        && source.take(&mut pair) == Ok(1)
        && source.take(&mut pair) == Ok(0)
}

#[test]
fn files_are_opened_by_name_and_bytes_are_moved(rt: HostRuntime) {
    match files(rt.alloc()) {
        Ok(mut files) => assert!(rt; are_opened(&mut files)),
        Err(_) => assert!(rt; false),
    }
    assert!(rt; are_moved(rt.alloc()));
}
