//! Runs with many workers, with an open gate and with one at which two workers look for each other.

use crate::demo::{TWO_SHIPS, demo};
use crate::ends::{NONE_FAILS, Report, Watch, gave};
use crate::scripts::run_script;
use crate::tables::{TripsProgram, run_table};
use mob_fan_rows::gates::TwoFlags;
use std::alloc::{AllocError, Global};
use std::thread::Threads;

// Boxes that touch, one row twice, a trip that is NULL. The outer table has two rows.
const JOIN: &str = "CREATE TABLE a (id int, trip tgeompoint);
CREATE TABLE b (id int, trip tgeompoint);
INSERT INTO a VALUES (1, '[POINT(0 0)@2001-01-01, POINT(2 2)@2001-01-02]'), (2, NULL);
INSERT INTO b VALUES (7, '[POINT(2 2)@2001-01-02, POINT(3 3)@2001-01-03]'), (7, '[POINT(2 2)@2001-01-02, POINT(3 3)@2001-01-03]'), (8, '[POINT(9 9)@2001-01-02, POINT(9 8)@2001-01-03]');
SELECT a.id AS x, b.id AS y FROM a, b WHERE a.trip && b.trip;
";

const JOINED: &[u8] = b"x,y\n1,7\n1,7\n(2 rows)\n";

// The tables of `JOIN`. One of them loses the row with the distant box and is left-joined.
const CHANGE: &str = "CREATE TABLE a (id int, trip tgeompoint);
CREATE TABLE b (id int, trip tgeompoint);
INSERT INTO a VALUES (1, '[POINT(0 0)@2001-01-01, POINT(2 2)@2001-01-02]'), (2, NULL);
INSERT INTO b VALUES (7, '[POINT(2 2)@2001-01-02, POINT(3 3)@2001-01-03]'), (7, '[POINT(2 2)@2001-01-02, POINT(3 3)@2001-01-03]'), (8, '[POINT(9 9)@2001-01-02, POINT(9 8)@2001-01-03]');
DELETE FROM b WHERE trip && stbox 'STBOX X((8,8),(10,10))';
SELECT a.id AS x, b.id AS y FROM a LEFT JOIN b ON a.trip && b.trip;
SELECT id FROM b;
";

const CHANGED: &[u8] = b"x,y\n1,7\n1,7\n2,\\N\n(3 rows)\nid\n7\n7\n(2 rows)\n";

// Two trips side by side, 3 apart at each instant, and one that is far from both. They reach more
// than 64 tiles.
const TABLE: &str = "id,trip
1,\"[POINT(0 0)@2001-01-01 00:00:00, POINT(80 0)@2001-01-01 00:00:04]\"
2,\"[POINT(0 3)@2001-01-01 00:00:00, POINT(80 3)@2001-01-01 00:00:04]\"
3,POINT(99 0)@2001-01-01 00:00:00
";

const PAIRS: &[u8] = b"a,b\n1,2\n(1 rows)\n";

// The task of many workers.
#[derive(Clone, Copy)]
enum Work {
    Join,
    Change,
    Demo,
    Pairs,
}

fn run_by(
    rt: &(impl Threads + Sync),
    alloc: Global,
    workers: &str,
    script: &str,
    gate: &Watch,
) -> Result<Report, AllocError> {
    let words = ["mobsql", "--workers", workers];
    run_script(rt, alloc, &words, script, None, NONE_FAILS, gate)
}

fn pairs_by(
    rt: &(impl Threads + Sync),
    alloc: Global,
    workers: &str,
    gate: &Watch,
) -> Result<Report, AllocError> {
    let words = [
        "mobtile",
        "--size",
        "1",
        "--width",
        "100",
        "--near",
        "3",
        "--workers",
        workers,
    ];
    let program = TripsProgram::Tile;
    run_table(rt, alloc, program, &words, TABLE, NONE_FAILS, gate)
}

fn run_once(
    rt: &(impl Threads + Sync),
    alloc: Global,
    work: Work,
    workers: &str,
    gate: &Watch,
) -> Result<Report, AllocError> {
    match work {
        Work::Join => run_by(rt, alloc, workers, JOIN, gate),
        Work::Change => run_by(rt, alloc, workers, CHANGE, gate),
        Work::Demo => demo(rt, alloc, "2", workers, gate),
        Work::Pairs => pairs_by(rt, alloc, workers, gate),
    }
}

fn answer(work: Work) -> &'static [u8] {
    match work {
        Work::Join => JOINED,
        Work::Change => CHANGED,
        Work::Demo => TWO_SHIPS,
        Work::Pairs => PAIRS,
    }
}

// This number of workers, which pass this gate, write the answer.
fn is_answered(
    rt: &(impl Threads + Sync),
    alloc: Global,
    work: Work,
    workers: &str,
    gate: &Watch,
) -> bool {
    match &run_once(rt, alloc, work, workers, gate) {
        Ok(seen) => gave(seen, 0, answer(work), b""),
        Err(_) => false,
    }
}

static OPEN: [(Work, &'static str); 12] = [
    (Work::Join, "1"),
    (Work::Join, "3"),
    (Work::Join, "64"),
    (Work::Change, "1"),
    (Work::Change, "3"),
    (Work::Change, "64"),
    (Work::Demo, "1"),
    (Work::Demo, "3"),
    (Work::Demo, "64"),
    (Work::Pairs, "1"),
    (Work::Pairs, "3"),
    (Work::Pairs, "64"),
];

#[test]
fn any_number_of_workers_answers_the_same(rt: HostRuntime) {
    for (work, workers) in &OPEN {
        let gate = Watch { flags: None };
        assert!(rt;
            is_answered(&rt, rt.alloc(), *work, workers, &gate),
            "{workers}"
        );
    }
}

// Whether two of these workers see each other, and the answer is the same.
fn see_each_other(rt: &(impl Threads + Sync), alloc: Global, work: Work, workers: &str) -> bool {
    let flags = TwoFlags::new();
    let gate = Watch {
        flags: Some(&flags),
    };
    is_answered(rt, alloc, work, workers, &gate) && flags.both_saw()
}

#[test]
fn two_workers_see_each_other(rt: HostRuntime) {
    assert!(rt; see_each_other(&rt, rt.alloc(), Work::Join, "2"));
    assert!(rt; see_each_other(&rt, rt.alloc(), Work::Pairs, "2"));
    assert!(rt; see_each_other(&rt, rt.alloc(), Work::Pairs, "64"));
}
