//! The places that cut columns of tiles, by the rows that reach these.

use mob_pairs::{Reach, even_places};
use mob_tile::{Tile, TileRange};
use std::alloc::{AllocError, Global};

// The columns in which rows begin, how many further columns each reaches, the first column, how
// many columns there are, how many pieces are asked for, and the places.
type Row = (&'static [i64], i64, i64, usize, usize, &'static [usize]);

static PLACES: [Row; 15] = [
    // two rows for each piece, in any order
    (&[0, 1, 2, 3, 4, 5], 0, 0, 6, 3, &[2, 4]),
    (&[3, 5, 0, 2, 4, 1], 0, 0, 6, 3, &[2, 4]),
    (&[-8, -7, -6, -5], 0, -8, 4, 2, &[2]),
    // one and two thirds of a row for each piece
    (&[0, 1, 2, 3, 4], 0, 0, 5, 3, &[2, 4]),
    // columns that no row reaches: the piece ends at the first possible place
    (&[10, 10, 17, 17], 0, 10, 9, 2, &[1]),
    // one column with more than half of the rows
    (&[0, 1, 1, 1, 1, 1, 2, 3], 0, 0, 4, 4, &[2]),
    (&[0, 1, 2, 3, 3, 3, 3, 3], 0, 0, 5, 4, &[2, 4]),
    // fewer rows than pieces
    (&[0, 1, 3], 0, 0, 4, 64, &[1, 2]),
    // all in one column, no rows, one piece, and one column
    (&[7, 7, 7], 0, 7, 1, 4, &[]),
    (&[], 0, 0, 5, 3, &[]),
    (&[0, 1, 2, 3], 0, 0, 4, 1, &[]),
    // a row counts for each column that it reaches
    (&[0, 3], 3, 0, 4, 2, &[3]),
    (&[0, 1, 2], 1, 0, 4, 3, &[2, 3]),
    // columns before the first count as the first, and those after the last as the last
    (&[-9, 1], 10, 0, 3, 2, &[2]),
    (&[-9, 0, 1, 900, 1000], 0, 0, 3, 2, &[2]),
];

// The range of one tile in each column from `low` to `high`.
fn range(low: i64, high: i64) -> TileRange {
    TileRange {
        low: tile(low),
        high: tile(high),
    }
}

fn tile(i: i64) -> Tile {
    Tile { i, j: 0, k: 0 }
}

// Rows that begin in these columns and reach this many further ones, and one that reaches none.
fn reaches(alloc: Global, columns: &[i64], further: i64) -> Result<Vec<Option<Reach>>, AllocError> {
    let mut out = Vec::new(alloc);
    out.push(None)?;
    for i in columns {
        out.push(Some(Reach {
            wide: range(*i, i.saturating_add(further)),
            narrow: range(0, 0),
        }))?;
    }
    Ok(out)
}

fn is_cut(alloc: Global, row: &Row) -> bool {
    let (columns, further, first, count, pieces, want) = row;
    let Ok(reaches) = reaches(alloc, columns, *further) else {
        return false;
    };
    match &even_places(alloc, *first, *count, reaches.as_slice(), *pieces) {
        Ok(places) => places.as_slice() == *want,
        Err(_) => false,
    }
}

#[test]
fn columns_are_cut_evenly(rt: HostRuntime) {
    for row in &PLACES {
        assert!(rt; is_cut(rt.alloc(), row));
    }
}
