//! Divided work has one outcome for every number of workers, and as many run as are asked for.
ghost use Rattle.std.specs.Prelude.{◌≤◌};

use crate::gates::{Passing, TwoFlags};
use crate::numbers::Numbers;
use crate::watched::{Asked, Meeting, Noted, Watched};
use mob_fan::{Outcome, fan};
use mob_outside::{Gate, OpenGate};
use std::alloc::Global;
use std::marker::Sync;
use std::thread::Threads;

// The numbers, up to a limit, are these items for this number of workers.
fn gives_items<R: Threads + Sync, G: Gate>(
    rt: &R,
    alloc: Global,
    numbers: &[u32],
    workers: usize,
    gate: &G,
    want: &[u32],
) -> bool
    requires some { 1 ≤ workers }
    requires few { workers ≤ 64 }
{
    let work = Numbers {
        all: numbers,
        limit: 9,
    };
    match &fan(rt, alloc, &work, numbers.len(), workers, gate) {
        Ok(Outcome::Items(items)) => items.as_slice() == want,
        _ => false,
    }
}

// The numbers, up to a limit, stop at this one for this number of workers.
fn gives_fault<R: Threads + Sync>(
    rt: &R,
    alloc: Global,
    numbers: &[u32],
    workers: usize,
    want: u32,
) -> bool
    requires some { 1 ≤ workers }
    requires few { workers ≤ 64 }
{
    let work = Numbers {
        all: numbers,
        limit: 9,
    };
    match &fan(rt, alloc, &work, numbers.len(), workers, &OpenGate) {
        Ok(Outcome::Stop(fault)) => *fault == want,
        _ => false,
    }
}

const NUMBERS: [u32; 10] = [3, 1, 4, 1, 5, 9, 2, 6, 5, 3];

#[test]
fn items_in_order(rt: HostRuntime) {
    let numbers = NUMBERS.as_slice();
    for workers in [1, 2, 3, 64] {
        assert!(rt;
            gives_items(&rt, rt.alloc(), numbers, workers, &OpenGate, numbers),
            "{workers}"
        );
    }
}

#[test]
fn nothing_to_do(rt: HostRuntime) {
    for workers in [1, 2, 3, 64] {
        assert!(rt;
            gives_items(
                &rt,
                rt.alloc(),
                [].as_slice(),
                workers,
                &OpenGate,
                [].as_slice()
            ),
            "{workers}"
        );
    }
}

#[test]
fn the_left_fault_first(rt: HostRuntime) {
    let three = [1, 2, 3, 11, 4, 12, 13];
    let last = [1, 2, 3, 4, 5, 6, 17];
    for workers in [1, 2, 3, 64] {
        assert!(rt;
            gives_fault(&rt, rt.alloc(), three.as_slice(), workers, 11),
            "{workers}"
        );
        assert!(rt;
            gives_fault(&rt, rt.alloc(), last.as_slice(), workers, 17),
            "{workers}"
        );
    }
}

#[test]
fn each_worker_passes_once(rt: HostRuntime) {
    let numbers = NUMBERS.as_slice();
    for (workers, want) in [(1, 1), (2, 3), (3, 7), (64, 1023)] {
        let gate = Passing::new();
        assert!(rt;
            gives_items(&rt, rt.alloc(), numbers, workers, &gate, numbers),
            "{workers}"
        );
        assert_eq!(rt; gate.sum(), want, "{workers}");
    }
    let gate = Passing::new();
    assert!(rt; gives_items(&rt, rt.alloc(), [].as_slice(), 64, &gate, [].as_slice()));
    assert_eq!(rt; gate.sum(), 1);
}

// Work begins after the gate: no piece finds that no worker has passed it.
fn begins_behind_the_gate<R: Threads + Sync>(rt: &R, alloc: Global, workers: usize) -> bool
    requires some { 1 ≤ workers }
    requires few { workers ≤ 64 }
{
    let gate = Passing::new();
    let work = Watched {
        gate: &gate,
        size: 3,
    };
    matches!(
        fan(rt, alloc, &work, 3, workers, &gate),
        Ok(Outcome::Items(_))
    )
}

#[test]
fn the_gate_comes_before_the_work(rt: HostRuntime) {
    for workers in [1, 3] {
        assert!(rt;
            begins_behind_the_gate(&rt, rt.alloc(), workers),
            "{workers}"
        );
    }
}

#[test]
fn two_workers_see_each_other(rt: HostRuntime) {
    let gate = TwoFlags::new();
    let two = [1, 2];
    assert!(rt; gives_items(&rt, rt.alloc(), two.as_slice(), 2, &gate, two.as_slice()));
    assert!(rt; gate.both_saw());
}

#[test]
fn two_pieces_run_side_by_side(rt: HostRuntime) {
    let flags = TwoFlags::new();
    let work = Meeting { flags: &flags };
    let outcome = fan(&rt, rt.alloc(), &work, 2, 2, &OpenGate);
    assert!(rt; matches!(outcome, Ok(Outcome::Items(_))));
    assert!(rt; flags.both_saw());
}

// Work of this size is divided into this many pieces, and each number is in exactly one.
fn is_done_once<R: Threads + Sync>(
    rt: &R,
    alloc: Global,
    size: usize,
    workers: usize,
    pieces: u64,
) -> bool
    requires some { 1 ≤ workers }
    requires few { workers ≤ 64 }
{
    let asked = Asked::new();
    let work = Noted {
        asked: &asked,
        size,
    };
    let outcome = fan(rt, alloc, &work, size, workers, &OpenGate);
    matches!(&outcome, Ok(Outcome::Items(_)))
        && asked.lengths() == size as u64
        && asked.pieces() == pieces
}

#[test]
fn no_work_is_done_twice(rt: HostRuntime) {
    for size in [0, 1, 5, 70, 5000] {
        assert!(rt; is_done_once(&rt, rt.alloc(), size, 1, 1), "{size}");
    }
    for (size, pieces) in [(0, 1), (1, 1), (5, 5), (70, 64), (5000, 64)] {
        assert!(rt; is_done_once(&rt, rt.alloc(), size, 2, pieces), "{size}");
    }
    for (size, pieces) in [(0, 1), (1, 1), (5, 5), (70, 70), (5000, 96)] {
        assert!(rt; is_done_once(&rt, rt.alloc(), size, 3, pieces), "{size}");
    }
    for (size, pieces) in [(0, 1), (1, 1), (5, 5), (70, 70), (5000, 2048)] {
        assert!(rt; is_done_once(&rt, rt.alloc(), size, 64, pieces), "{size}");
    }
}
