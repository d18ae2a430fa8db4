//! Tiles, by their three numbers, and ranges of tiles.
ghost use Rattle.std.specs.Prelude.{◌≡◌, ◌↔◌, pos, true, ◌<ℤ◌, ◌≤ℤ◌, ◌*ℤ◌, ℤ, nat_abs, ◌<◌, ◌^◌};
ghost use Rattle.mob_grid.specs.Tiles.{compare_tiles, compare_later, greater_number, least_shared, is_least_shared, tile_side, HasMany, IsRange};

use std::cmp::Ordering;

/// A tile of a grid: from `i` to `i + 1` in x, from `j` to `j + 1` in y and from `k` to `k + 1` in
/// time, each counted in sides of a tile, as half-open intervals.
#[derive(Clone, Copy, Debug, Drop)]
pub struct Tile {
    /// The number in x.
    pub i: i64,
    /// The number in y.
    pub j: i64,
    /// The number in time.
    pub k: i64,
}

/// All tiles between two tiles in each number, both included.
#[derive(Clone, Copy, Debug, Drop)]
pub struct TileRange {
    /// The least in each number.
    pub low: Tile,
    /// The greatest in each number.
    pub high: Tile,
}

impl Tile {
    /// The order of the two: by i, then by j, then by k.
    pub fn compare(&self, other: &Tile) -> Ordering
        ensures order { result ≡ compare_tiles self.now other.now }
    {
        match self.i.cmp(&other.i) {
            Ordering::Equal => compare_later(self, other),
            order => order,
        }
    }
}

// By j, then by k.
fn compare_later(a: &Tile, b: &Tile) -> Ordering
    ensures order { result ≡ compare_later a.now b.now }
{
    match a.j.cmp(&b.j) {
        Ordering::Equal => a.k.cmp(&b.k),
        order => order,
    }
}

// How many numbers there are from `low` to `high`, both included.
fn side(low: i64, high: i64) -> i128
    requires order { low ≤ℤ high }
    ensures value { result ≡ tile_side low high }
    ensures some { pos 1 ≤ℤ result }
{
    high as i128 - low as i128 + 1
}

// Whether there are more than 10,000.
fn is_large(n: i128) -> bool
    ensures exact { (result ≡ true) ↔ (pos 10000 <ℤ n) }
{
    n > 10_000
}

// The product of two short sides.
fn area(a: i128, b: i128) -> i128
    requires left { nat_abs a < 2 ^ 14 }
    requires right { nat_abs b < 2 ^ 14 }
    ensures value { result ≡ a *ℤ b }
    ensures bound { nat_abs result < 2 ^ 28 }
{
    a * b
}

// The product of an area and a short side.
fn volume(a: i128, b: i128) -> i128
    requires left { nat_abs a < 2 ^ 28 }
    requires right { nat_abs b < 2 ^ 14 }
    ensures value { result ≡ a *ℤ b }
{
    a * b
}

// Whether three sides have more than 10,000 tiles.
fn are_many(i: i128, j: i128, k: i128) -> bool
    requires by_i { pos 1 ≤ℤ i }
    requires by_j { pos 1 ≤ℤ j }
    requires by_k { pos 1 ≤ℤ k }
    ensures exact { (result ≡ true) ↔ (pos 10000 <ℤ (i *ℤ j *ℤ k)) }
{
    if is_large(i) {
        return true;
    }
    if is_large(j) {
        return true;
    }
    if is_large(k) {
        return true;
    }
    is_large(volume(area(i, j), k))
}

fn greater(a: i64, b: i64) -> i64
    ensures value { result ≡ greater_number a b }
{
    if a < b {
        return b;
    }
    a
}

impl TileRange {
    /// Whether the range has more than 10,000 tiles.
    pub fn has_many(&self) -> bool
        requires range { IsRange self.now }
        ensures exact { (result ≡ true) ↔ HasMany self.now }
    {
        let by_i = side(self.low.i, self.high.i);
        let by_j = side(self.low.j, self.high.j);
        let by_k = side(self.low.k, self.high.k);
        are_many(by_i, by_j, by_k)
    }

    // The least tile that the two share, if they share one.
    fn least_shared(&self, other: &TileRange) -> Tile
        ensures value { result ≡ least_shared self.now other.now }
    {
        Tile {
            i: greater(self.low.i, other.low.i),
            j: greater(self.low.j, other.low.j),
            k: greater(self.low.k, other.low.k),
        }
    }

    /// Whether a tile is the least that the two share, if they share one.
    pub fn is_least_shared(&self, other: &TileRange, tile: &Tile) -> bool
        ensures value { result ≡ is_least_shared tile.now self.now other.now }
    {
        tile.compare(&self.least_shared(other)) == Ordering::Equal
    }
}
