//! Runs in which the k-th call of a stream or of the files fails, for each k until there is no k-th
//! call. What whole scripts and tables answer is in `checks/rows` and `checks/trips`. Only
//! contracts see how often a stream has failed (clauses `fails`, `counts` and `failed` of the
//! streams in memory).

use crate::ends::{Failing, NONE_FAILS, Report, Watch, gave};
use crate::scripts::run_script;
use crate::tables::{TripsProgram, run_table};
use std::alloc::{AllocError, Global};
use std::thread::Threads;

// The programs; `Parts` and `Pairs` are mobtile without and with `--near`.
#[derive(Clone, Copy)]
enum Program {
    Sql,
    Near,
    Thin,
    Parts,
    Pairs,
}

// The streams and the files, one of which has a failing call. The input is the script or the table.
#[derive(Clone, Copy)]
enum End {
    Input,
    File,
    Out,
    Notes,
}

// A run in which a stream fails: the program, the stream, and the script or the table. Then the
// status and the note of a run with a failing call; the status, the answer and the note of a run
// without one; and for each call that can fail, how many bytes of the answer, or of the note if
// that fails, are written before it.
type Row = (
    Program,
    End,
    &'static str,
    (u8, &'static str),
    (u8, &'static str, &'static str),
    &'static [usize],
);

const SCRIPT: &str = "SELECT tint '[5@2001-01-01]';\n";

const ANSWER: &str = "c1\n5@2001-01-01 00:00:00+00\n(1 rows)\n";

const COPY: &str =
    "CREATE TABLE t (k int); COPY t FROM 't.csv' WITH (FORMAT csv, HEADER); SELECT k FROM t WHERE k > 2;";

// A file that is copied twice, with a literal without a value in between.
const TWICE: &str =
    "CREATE TABLE t (k int); CREATE TABLE u (k int); COPY t FROM 't.csv' WITH (FORMAT csv, HEADER); SELECT tint 'bad'; COPY u FROM 't.csv' WITH (FORMAT csv, HEADER);";

// Rows are deleted between two queries.
const DELETE: &str =
    "CREATE TABLE t (k int); COPY t FROM 't.csv' WITH (FORMAT csv, HEADER); SELECT k FROM t; DELETE FROM t WHERE k < 3; SELECT k FROM t;";

const LEFT: &str =
    "CREATE TABLE t (k int); COPY t FROM 't.csv' WITH (FORMAT csv, HEADER); SELECT a.k AS a, b.k AS b FROM t a LEFT JOIN t b ON b.k > a.k;";

const FILE: &[u8] = b"k\n1\n2\n3\n";

static SCRIPTS: [Row; 15] = [
    // An empty script has one call, which finds the end.
    (
        Program::Sql,
        End::Input,
        "",
        (3, "read fault: script\n"),
        (0, "", ""),
        &[0],
    ),
    // The script has 30 bytes, so there are 6 calls: five with bytes, and one that finds the end.
    (
        Program::Sql,
        End::Input,
        SCRIPT,
        (3, "read fault: script\n"),
        (0, ANSWER, ""),
        &[0, 0, 0, 0, 0, 0],
    ),
    // The file has 8 bytes, so there are 4 calls: one that opens it, two with bytes, and one that
    // finds the end.
    (
        Program::Sql,
        End::File,
        COPY,
        (3, "read fault: t.csv\n"),
        (0, "k\n3\n(1 rows)\n", ""),
        &[0, 0, 0, 0],
    ),
    // The script has 99 bytes, so there are 16 calls: fifteen with bytes, and one that finds the
    // end.
    (
        Program::Sql,
        End::Input,
        COPY,
        (3, "read fault: script\n"),
        (0, "k\n3\n(1 rows)\n", ""),
        &[0, 0, 0, 0, 0, 0, 0, 0, 0, 0, 0, 0, 0, 0, 0, 0],
    ),
    // The answer has 13 bytes, so there are 2 calls.
    (
        Program::Sql,
        End::Out,
        COPY,
        (4, "write fault\n"),
        (0, "k\n3\n(1 rows)\n", ""),
        &[0, 7],
    ),
    // The answer has 37 bytes, so there are 6 calls. Each before the failing one wrote 7 bytes.
    (
        Program::Sql,
        End::Out,
        SCRIPT,
        (4, "write fault\n"),
        (0, ANSWER, ""),
        &[0, 7, 14, 21, 28, 35],
    ),
    // The note of a refusal is written in nine pieces of 10, 1, 7, 1, 10, 1, 2, 11 and 2 bytes, so
    // in 12 calls.
    (
        Program::Sql,
        End::Notes,
        "SELECT b;",
        (7, ""),
        (7, "", "statement 1, byte 7: refusal 6 (UnknownName)\n"),
        &[0, 7, 10, 11, 18, 19, 26, 29, 30, 32, 39, 43],
    ),
    // ---- with DELETE and with LEFT JOIN
    // The script has 131 bytes, so there are 20 calls.
    (
        Program::Sql,
        End::Input,
        DELETE,
        (3, "read fault: script\n"),
        (0, "k\n1\n2\n3\n(3 rows)\nk\n3\n(1 rows)\n", ""),
        &[0, 0, 0, 0, 0, 0, 0, 0, 0, 0, 0, 0, 0, 0, 0, 0, 0, 0, 0, 0],
    ),
    (
        Program::Sql,
        End::File,
        DELETE,
        (3, "read fault: t.csv\n"),
        (0, "k\n1\n2\n3\n(3 rows)\nk\n3\n(1 rows)\n", ""),
        &[0, 0, 0, 0],
    ),
    // The answers have 17 and 13 bytes, so there are 3 and 2 calls. The DELETE between them makes
    // none.
    (
        Program::Sql,
        End::Out,
        DELETE,
        (4, "write fault\n"),
        (0, "k\n1\n2\n3\n(3 rows)\nk\n3\n(1 rows)\n", ""),
        &[0, 7, 14, 17, 24],
    ),
    // The note of a fault of a DELETE is written in nine pieces of 10, 1, 7, 1, 7, 2, 2, 10 and 16
    // bytes, so in 13 calls.
    (
        Program::Sql,
        End::Notes,
        "CREATE TABLE t (k int); COPY t FROM 't.csv' WITH (FORMAT csv, HEADER); DELETE FROM t WHERE k + 4611686018427387902 > 0;",
        (8, ""),
        (
            8,
            "",
            "statement 3, rows 2, byte 93: formula F2 passes 62 bits\n",
        ),
        &[0, 7, 10, 11, 18, 19, 26, 28, 30, 37, 40, 47, 54],
    ),
    // The script has 133 bytes, so there are 20 calls.
    (
        Program::Sql,
        End::Input,
        LEFT,
        (3, "read fault: script\n"),
        (0, "a,b\n1,2\n1,3\n2,3\n3,\\N\n(4 rows)\n", ""),
        &[0, 0, 0, 0, 0, 0, 0, 0, 0, 0, 0, 0, 0, 0, 0, 0, 0, 0, 0, 0],
    ),
    (
        Program::Sql,
        End::File,
        LEFT,
        (3, "read fault: t.csv\n"),
        (0, "a,b\n1,2\n1,3\n2,3\n3,\\N\n(4 rows)\n", ""),
        &[0, 0, 0, 0],
    ),
    // The answer has 30 bytes, so there are 5 calls.
    (
        Program::Sql,
        End::Out,
        LEFT,
        (4, "write fault\n"),
        (0, "a,b\n1,2\n1,3\n2,3\n3,\\N\n(4 rows)\n", ""),
        &[0, 7, 14, 21, 28],
    ),
    // The note has no row for the left-joined table. It is written in eleven pieces, two of which
    // are ` ` and `0`, so in 15 calls.
    (
        Program::Sql,
        End::Notes,
        "CREATE TABLE t (k int); COPY t FROM 't.csv' WITH (FORMAT csv, HEADER); SELECT a.k AS x FROM t a LEFT JOIN t b ON b.k > 9 WHERE a.k + 4611686018427387902 > 0;",
        (8, ""),
        (
            8,
            "",
            "statement 3, rows 2 0, byte 131: formula F2 passes 62 bits\n",
        ),
        &[0, 7, 10, 11, 18, 19, 20, 21, 28, 31, 33, 40, 43, 50, 57],
    ),
];

pub const NEAR_WORDS: &[&str] = &["mobnear", "--k", "1", "--to", "POINT(-1 0)"];

const THIN_WORDS: &[&str] = &["mobthin", "--within", "1"];

pub const TABLE: &str = "id,trip\n7,POINT(2 4)@2001-01-01\n";

pub const NEAREST: &str = "id,approach\n7,25\n(1 rows)\n";

const THINNED: &str = "id,trip\n7,POINT(2 4)@2001-01-01 00:00:00+00\n";

// The note for a table that is empty or has a wrong header.
const NO_HEADER: &str = "table: record 1, field 0: refusal 15 (BadHeader)\n";

const PARTS_WORDS: &[&str] = &[
    "mobtile",
    "--epoch",
    "2001-01-01",
    "--size",
    "2",
    "--width",
    "100",
];

const PAIRS_WORDS: &[&str] = &[
    "mobtile",
    "--size",
    "2",
    "--width",
    "100",
    "--near",
    "1",
    "--workers",
    "3",
];

const PARTS: &str = "id,tile,part\n7,1 2 0,POINT(2 4)@2001-01-01 00:00:00+00\n(1 rows)\n";

const TWO: &str = "id,trip\n7,POINT(2 4)@2001-01-01\n8,POINT(2 4)@2001-01-01\n";

const PAIRS: &str = "a,b\n7,8\n(1 rows)\n";

static TABLES: [Row; 17] = [
    // ---- mobnear
    // An empty table has one call, which finds the end, and is refused.
    (
        Program::Near,
        End::Input,
        "",
        (3, "read fault: table\n"),
        (6, "", NO_HEADER),
        &[0],
    ),
    // The table has 32 bytes, so there are 5 calls: four with bytes, and one that finds the end.
    (
        Program::Near,
        End::Input,
        TABLE,
        (3, "read fault: table\n"),
        (0, NEAREST, ""),
        &[0, 0, 0, 0, 0],
    ),
    // The answer has 26 bytes, so there are 4 calls. Each before the failing one wrote 8 bytes.
    (
        Program::Near,
        End::Out,
        TABLE,
        (4, "write fault\n"),
        (0, NEAREST, ""),
        &[0, 8, 16, 24],
    ),
    // The note of a refused table is written in pieces of 5, 9, 1, 8, 1, 10, 2, 2, 9 and 2 bytes.
    (
        Program::Near,
        End::Notes,
        "id\n1\n",
        (6, ""),
        (6, "", NO_HEADER),
        &[0, 5, 13, 14, 15, 23, 24, 32, 34, 36, 38, 46, 47],
    ),
    // The note of a part that does not fit is written in pieces of 5, 1, 2, 10 and 16 bytes.
    (
        Program::Near,
        End::Notes,
        "id,trip\n1,POINT(4611686018427387903 0)@2001-01-01\n",
        (8, ""),
        (8, "", "rows 1: formula F2 passes 62 bits\n"),
        &[0, 5, 6, 8, 16, 18, 26],
    ),
    // ---- mobthin
    // An empty table has one call, which finds the end, and is refused.
    (
        Program::Thin,
        End::Input,
        "",
        (3, "read fault: table\n"),
        (6, "", NO_HEADER),
        &[0],
    ),
    // The table has 32 bytes, so there are 5 calls: four with bytes, and one that finds the end.
    (
        Program::Thin,
        End::Input,
        TABLE,
        (3, "read fault: table\n"),
        (0, THINNED, ""),
        &[0, 0, 0, 0, 0],
    ),
    // The text has 44 bytes, so there are 6 calls. Each before the failing one wrote 8 bytes.
    (
        Program::Thin,
        End::Out,
        TABLE,
        (4, "write fault\n"),
        (0, THINNED, ""),
        &[0, 8, 16, 24, 32, 40],
    ),
    // The note of a refused table is written in pieces of 5, 9, 1, 8, 1, 10, 2, 2, 9 and 2 bytes.
    (
        Program::Thin,
        End::Notes,
        "id\n1\n",
        (6, ""),
        (6, "", NO_HEADER),
        &[0, 5, 13, 14, 15, 23, 24, 32, 34, 36, 38, 46, 47],
    ),
    // The note of a part that does not fit is written in pieces of 5, 1, 2, 10 and 16 bytes.
    (
        Program::Thin,
        End::Notes,
        "id,trip\n1,\"[POINT(0 0)@2001-01-01, POINT(3000000000 0)@2001-01-02, POINT(0 0)@2001-01-03]\"\n",
        (8, ""),
        (8, "", "rows 1: formula F6 passes 62 bits\n"),
        &[0, 5, 6, 8, 16, 18, 26],
    ),
    // ---- mobtile
    // An empty table has one call, which finds the end, and is refused.
    (
        Program::Parts,
        End::Input,
        "",
        (3, "read fault: table\n"),
        (6, "", NO_HEADER),
        &[0],
    ),
    // The table has 32 bytes, so there are 5 calls: four with bytes, and one that finds the end.
    (
        Program::Parts,
        End::Input,
        TABLE,
        (3, "read fault: table\n"),
        (0, PARTS, ""),
        &[0, 0, 0, 0, 0],
    ),
    // The answer has 64 bytes, so there are 8 calls. Each before the failing one wrote 8 bytes.
    (
        Program::Parts,
        End::Out,
        TABLE,
        (4, "write fault\n"),
        (0, PARTS, ""),
        &[0, 8, 16, 24, 32, 40, 48, 56],
    ),
    // The table has 56 bytes, and one more call finds its end.
    (
        Program::Pairs,
        End::Input,
        TWO,
        (3, "read fault: table\n"),
        (0, PAIRS, ""),
        &[0, 0, 0, 0, 0, 0, 0, 0],
    ),
    (
        Program::Pairs,
        End::Out,
        TWO,
        (4, "write fault\n"),
        (0, PAIRS, ""),
        &[0, 8, 16],
    ),
    // The note of a row beyond the limit is written in pieces of 5, 1 and 21 bytes.
    (
        Program::Parts,
        End::Notes,
        "id,trip\n1,\"{POINT(0 0)@2001-01-01 00:00:00, POINT(20000 0)@2001-01-01 00:00:01}\"\n",
        (6, ""),
        (6, "", "rows 1: refusal 13 (Limit)\n"),
        &[0, 5, 6, 14, 22],
    ),
    // The note of a part that does not fit, for two rows, is written in pieces of 5, 1, 1, 1, 2, 10
    // and 16 bytes.
    (
        Program::Pairs,
        End::Notes,
        "id,trip\n1,POINT(0 1/4000000007)@2001-01-01\n2,POINT(0 1/4000000009)@2001-01-01\n",
        (8, ""),
        (8, "", "rows 1 2: formula F2 passes 62 bits\n"),
        &[0, 5, 6, 7, 8, 10, 18, 20, 28],
    ),
];

// The call of this number fails, for this stream.
fn failing(end: End, call: u64) -> Failing {
    let mut failing = NONE_FAILS;
    match end {
        End::Input => failing.input = call,
        End::File => failing.files = call,
        End::Out => failing.out = call,
        End::Notes => failing.notes = call,
    }
    failing
}

// The arguments of a program.
fn arguments(program: Program) -> &'static [&'static str] {
    match program {
        Program::Sql => &[],
        Program::Near => NEAR_WORDS,
        Program::Thin => THIN_WORDS,
        Program::Parts => PARTS_WORDS,
        Program::Pairs => PAIRS_WORDS,
    }
}

// The program over a table of trips; None for mobsql.
fn over_trips(program: Program) -> Option<TripsProgram> {
    match program {
        Program::Sql => None,
        Program::Near => Some(TripsProgram::Near),
        Program::Thin => Some(TripsProgram::Thin),
        Program::Parts | Program::Pairs => Some(TripsProgram::Tile),
    }
}

fn run_once(
    rt: &(impl Threads + Sync),
    alloc: Global,
    program: Program,
    input: &str,
    failing: Failing,
) -> Result<Report, AllocError> {
    let gate = Watch { flags: None };
    let words = arguments(program);
    match over_trips(program) {
        Some(trips) => run_table(rt, alloc, trips, words, input, failing, &gate),
        None => run_script(
            rt,
            alloc,
            words,
            input,
            Some(("t.csv", FILE)),
            failing,
            &gate,
        ),
    }
}

// The first `count` bytes of a text.
fn front(text: &str, count: usize) -> &[u8] {
    text.as_bytes().get(..count).unwrap_or(&[])
}

// Whether a run with a failing call had the expected result, with this many bytes written before
// the call.
fn is_cut(seen: &Report, row: &Row, moved: usize) -> bool {
    let (status, note) = row.3;
    match row.1 {
        End::Input | End::File => gave(seen, status, b"", note.as_bytes()),
        End::Out => gave(seen, status, front(row.4.1, moved), note.as_bytes()),
        End::Notes => gave(seen, status, row.4.1.as_bytes(), front(row.4.2, moved)),
    }
}

// Whether a run without a failing call had the expected result.
fn is_whole(seen: &Report, row: &Row) -> bool {
    gave(seen, row.4.0, row.4.1.as_bytes(), row.4.2.as_bytes())
}

fn fails_so(rt: &(impl Threads + Sync), alloc: Global, row: &Row, call: u64, moved: usize) -> bool {
    match &run_once(rt, alloc, row.0, row.2, failing(row.1, call)) {
        Ok(seen) => is_cut(seen, row, moved),
        Err(_) => false,
    }
}

fn ends_so(rt: &(impl Threads + Sync), alloc: Global, row: &Row, call: u64) -> bool {
    match &run_once(rt, alloc, row.0, row.2, failing(row.1, call)) {
        Ok(seen) => is_whole(seen, row),
        Err(_) => false,
    }
}

// Each call that can fail ends the run as expected, and the next two numbers are no calls.
fn are_right(rt: &(impl Threads + Sync), alloc: Global, row: &Row) -> bool {
    let mut call: u64 = 1;
    for moved in row.5 {
        if !fails_so(rt, alloc, row, call, *moved) {
            return false;
        }
        call = call.saturating_add(1);
    }
    ends_so(rt, alloc, row, call) && ends_so(rt, alloc, row, call.saturating_add(1))
}

#[test]
fn calls_of_mobsql_that_fail(rt: HostRuntime) {
    for row in &SCRIPTS {
        assert!(rt; are_right(&rt, rt.alloc(), row), "{}", row.2);
    }
}

#[test]
fn calls_of_programs_over_trips_that_fail(rt: HostRuntime) {
    for row in &TABLES {
        assert!(rt; are_right(&rt, rt.alloc(), row), "{}", row.2);
    }
}

// Whether a run in which this call of the files fails writes nothing, and ends with this status and
// note.
fn ends_by(rt: &(impl Threads + Sync), alloc: Global, call: u64, status: u8, note: &str) -> bool {
    match &run_once(rt, alloc, Program::Sql, TWICE, failing(End::File, call)) {
        Ok(seen) => gave(seen, status, b"", note.as_bytes()),
        Err(_) => false,
    }
}

// The first four calls read the file of the first COPY. The fifth call would open that of the
// second, after the literal.
#[test]
fn a_file_that_is_copied_twice_is_read_when_it_is_reached(rt: HostRuntime) {
    let refused = "statement 4, byte 107: refusal 14 (BadLiteral)\n";
    assert!(rt; ends_by(&rt, rt.alloc(), 4, 3, "read fault: t.csv\n"));
    assert!(rt; ends_by(&rt, rt.alloc(), 5, 7, refused));
}
