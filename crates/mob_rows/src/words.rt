//! The settings that arguments give. Which arguments are refused is in `checks/rows`.

use crate::ends::listed;
use mob_arguments::settings;
use std::alloc::Global;

// Arguments, and what they give: the workers, the day of the epoch, the ships of the demo, and
// whether `--wide` is given. 0 ships stands for no demo.
static ROWS: [(&[&str], u32, i64, u32, bool); 14] = [
    (&[], 1, 10957, 0, false),
    (&["mobsql"], 1, 10957, 0, false),
    (&["mobsql", "--workers", "3"], 3, 10957, 0, false),
    (&["mobsql", "--workers=3"], 3, 10957, 0, false),
    (&["mobsql", "--workers=1"], 1, 10957, 0, false),
    (&["mobsql", "--workers", "64"], 64, 10957, 0, false),
    (&["mobsql", "--epoch", "2001-01-01"], 1, 11323, 0, false),
    (
        &["mobsql", "--epoch=2001-01-01", "--workers", "10"],
        10,
        11323,
        0,
        false,
    ),
    (&["mobsql", "--demo", "1"], 1, 10957, 1, false),
    (&["mobsql", "--demo=1000"], 1, 10957, 1000, false),
    (
        &["mobsql", "--demo", "200", "--workers=64"],
        64,
        10957,
        200,
        false,
    ),
    (&["mobsql", "--wide"], 1, 10957, 0, true),
    (&["mobsql", "--workers=2", "--wide"], 2, 10957, 0, true),
    (&["mobsql", "--wide", "--demo", "3"], 1, 10957, 3, true),
];

fn say(alloc: Global, words: &[String], workers: u32, day: i64, ships: u32, wide: bool) -> bool {
    match &settings(alloc, words) {
        Ok(Some(settings)) => {
            settings.workers == workers
                && settings.epoch.day() == day
                && settings.demo.unwrap_or(0) == ships
                && settings.wide == wide
        }
        _ => false,
    }
}

fn are_taken(
    alloc: Global,
    words: &[&str],
    workers: u32,
    day: i64,
    ships: u32,
    wide: bool,
) -> bool {
    match &listed(alloc, words) {
        Ok(list) => say(alloc, list, workers, day, ships, wide),
        Err(_) => false,
    }
}

#[test]
fn words_say_their_settings(rt: HostRuntime) {
    for (words, workers, day, ships, wide) in &ROWS {
        assert!(rt; are_taken(rt.alloc(), words, *workers, *day, *ships, *wide));
    }
}
