//! Where a slice crosses the edges of tiles.
ghost use Rattle.mob_slice.specs.Entries.{IsMadeBy};
ghost use Rattle.std.specs.Prelude.{◌≡◌, ◌++◌, map};
ghost use Rattle.std.specs.List.{flat_map, AllByRecursion};
ghost use Rattle.mob_frac.specs.Formula.{IsFormula};
ghost use Rattle.mob_slice.specs.declared.formula.Formula.TheVariants.{F2, F3};
ghost use Rattle.mob_cells.specs.Roots.{IsLevel, roots, roots_parts, root_of, root_parts, as_list};
ghost use Rattle.mob_tile.specs.Edges.{numbers_between, edge_of, tile_edge_parts, tile_edge_ends, time_parts};

use mob_cells::{Ends, root};
use mob_frac::{Frac, Overflow};
use mob_grid::edge;
use mob_list::fault::Fault;
use mob_slice::Formula;
use mob_span::Span;
use std::alloc::Global;

// The difference to an edge, from `x` to `y`.
fn difference(c: &Frac, x: &Frac, y: &Frac, n: i64) -> Result<Ends, Overflow>
    ensures value { IsFormula (tile_edge_parts c.now x.now y.now n) (tile_edge_ends c.now x.now y.now n) result }
{
    let at = edge(c, n)?;
    let at_lower = x.sub(&at)?;
    let at_upper = y.sub(&at)?;
    Ok(Ends { at_lower, at_upper })
}

/// The differences to all edges above `low` and up to `high`.
pub fn differences(
    alloc: Global,
    c: &Frac,
    x: &Frac,
    y: &Frac,
    low: i64,
    high: i64,
) -> Result<Vec<Ends>, Fault<Formula>>
    ensures made { IsMadeBy F2 (flat_map (tile_edge_parts c.now x.now y.now) (numbers_between low high)) (λ v. v.items ≡ map (tile_edge_ends c.now x.now y.now) (numbers_between low high)) result }
{
    let mut out = Vec::new(alloc);
    for m in low..high {
        let next = match difference(c, x, y, m + 1) {
            Ok(next) => next,
            Err(_) => {
                return Err(Fault::Because(Formula::F2));
            }
        };
        out.push(next)?;
    }
    Ok(out)
}

/// The edges of time above `low` and up to `high`.
pub fn times(alloc: Global, c: &Frac, low: i64, high: i64) -> Result<Vec<Frac>, Fault<Formula>>
    ensures made { IsMadeBy F2 (flat_map (time_parts c.now) (numbers_between low high)) (λ v. v.items ≡ map (edge_of c.now) (numbers_between low high)) result }
{
    let mut out = Vec::new(alloc);
    for m in low..high {
        let next = match edge(c, m + 1) {
            Ok(next) => next,
            Err(_) => {
                return Err(Fault::Because(Formula::F2));
            }
        };
        out.push(next)?;
    }
    Ok(out)
}

// Adds the root of a function, if there is one.
fn push_root(out: &mut Vec<Frac>, span: &Span, f: &Ends) -> Result<(), Fault<Formula>>
    requires level { IsLevel span.now f.now }
    ensures pushed { IsMadeBy F3 (root_parts span.now f.now) (λ _. out.new.items ≡ out.old.items ++ as_list (root_of span.now f.now)) result }
{
    match root(span, f) {
        Ok(None) => Ok(()),
        Ok(Some(r)) => {
            out.push(r)?;
            Ok(())
        }
        Err(passed) => Err(Fault::Because(passed)),
    }
}

/// The roots of some functions on a span.
pub fn roots_of(alloc: Global, span: &Span, functions: &[Ends]) -> Result<Vec<Frac>, Fault<Formula>>
    requires level { AllByRecursion (IsLevel span.now) functions.now }
    ensures made { IsMadeBy F3 (roots_parts span.now functions.now) (λ v. v.items ≡ roots span.now functions.now) result }
{
    // A call of a method gives the proof the invariant of every span.
    let _lower = span.lower();
    let mut out = Vec::new(alloc);
    for f in functions {
        push_root(&mut out, span, f)?;
    }
    Ok(out)
}
