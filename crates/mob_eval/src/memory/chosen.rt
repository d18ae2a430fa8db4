//! Chooses the operators of a query that are remembered.
ghost use Rattle.std.specs.Prelude.{◌≡◌, ◌==◌, ◌++◌, true, List, map};
ghost use Rattle.mob_typed.specs.Trees.{TypedTree, typed_of, typed_trees};
ghost use Rattle.mob_eval.specs.Remembered.{AreCopies, AreNodes, all_nodes_at, names_only, nodes_at, nodes_here, place_of, reads_only, root_seen};

use crate::memory::remembered::Remembering;
use crate::memory::{Memory, remember};
use mob_ast::SqlType;
use mob_operators::Op;
use mob_slice::Mode;
use mob_typed::TExpr;
use mob_value::Store;
use std::alloc::{AllocError, Global};

// About how many operators are remembered at most. Each is compared at each operator, so more would
// slow down every evaluation.
const MOST: usize = 8;

/// The nodes at a place in the script.
#[derive(Clone, Copy)]
pub enum NodesAt<'a> {
    /// There are none.
    Nobody,
    /// This one; any others are equal to it.
    Only(&'a TExpr),
    /// Several that differ.
    Several,
}

fn same_op(one: Op, other: Op) -> bool
    ensures same { result ≡ true → one ≡ other }
{
    one == other
}

fn same_type(one: SqlType, other: SqlType) -> bool
    ensures same { result ≡ true → one ≡ other }
{
    one == other
}

// Whether two nodes are equal. A key that refers to a column of the answer is a copy of the
// column's expression, at the same places in the script.
#[tactic(auto, using(mob_typed::proofs::TreeFacts::typed_is))]
fn are_same(one: &TExpr, other: &TExpr) -> bool
    ensures same { result ≡ true → typed_of one.now ≡ typed_of other.now }
{
    if !same_op(one.op, other.op) {
        return false;
    }
    if !same_type(one.ty, other.ty) {
        return false;
    }
    if one.place != other.place {
        return false;
    }
    let mut rest = other.args.as_slice();
    for arg in &one.args {
        let Some((first, behind)) = rest.split_first() else {
            return false;
        };
        if !are_same(arg, first) {
            return false;
        }
        rest = behind;
    }
    rest.is_empty()
}

// The nodes of two parts that each have one, with copies of it or without.
fn both_only<'a>(one: &'a TExpr, other: &'a TExpr) -> NodesAt<'a>
    ensures both { (es fs : List TypedTree) → AreCopies (typed_of one.now) es → AreCopies (typed_of other.now) fs → AreNodes result (es ++ fs) }
{
    if are_same(one, other) {
        return NodesAt::Only(one);
    }
    NodesAt::Several
}

// The nodes of two parts.
fn both<'a>(one: NodesAt<'a>, other: NodesAt<'a>) -> NodesAt<'a>
    ensures both { (es fs : List TypedTree) → AreNodes one.entry es → AreNodes other.entry fs → AreNodes result (es ++ fs) }
{
    match (one, other) {
        (NodesAt::Nobody, nodes) => nodes,
        (nodes, NodesAt::Nobody) => nodes,
        (NodesAt::Only(one), NodesAt::Only(other)) => both_only(one, other),
        _ => NodesAt::Several,
    }
}

// The node itself, if it is at this place.
fn node_here(e: &TExpr, at: u32) -> NodesAt<'_>
    ensures nodes { AreNodes result (nodes_here (place_of (typed_of e.now) == at) (typed_of e.now)) }
{
    if e.place == at {
        return NodesAt::Only(e);
    }
    NodesAt::Nobody
}

// The nodes of an expression at a place in the script.
fn nodes_of(e: &TExpr, at: u32) -> NodesAt<'_>
    ensures nodes { AreNodes result (nodes_at at (typed_of e.now)) }
{
    let mut found = node_here(e, at);
    for arg in &e.args {
        found = both(found, nodes_of(arg, at));
    }
    found
}

// The nodes of several expressions.
fn nodes_of_all<'a>(roots: &[&'a TExpr], at: u32) -> NodesAt<'a>
    ensures nodes { AreNodes result (all_nodes_at at (typed_trees (map root_seen roots.now))) }
{
    let mut found = NodesAt::Nobody;
    for root in roots {
        found = both(found, nodes_of(*root, at));
    }
    found
}

// Whether an operator that reads a table of FROM reads the one of this place.
fn reads_only(op: Op, place: Option<u32>) -> bool
    ensures only { result ≡ reads_only place op }
{
    match (op, place) {
        (Op::Column { from, column: _ }, Some(place)) => from == place,
        (Op::Column { from: _, column: _ }, None) => false,
        _ => true,
    }
}

// Whether an expression names no place but this one.
#[tactic(auto, using(mob_typed::proofs::TreeFacts::typed_is))]
fn names_only(e: &TExpr, place: Option<u32>) -> bool
    ensures only { result ≡ names_only place (typed_of e.now) }
{
    if !reads_only(e.op, place) {
        return false;
    }
    for arg in &e.args {
        if !names_only(arg, place) {
            return false;
        }
    }
    true
}

// The places of FROM that an expression names.
#[derive(Clone, Copy)]
enum NamedPlaces {
    Nowhere,
    At(u32),
    Far,
}

fn own_reach(op: Op) -> NamedPlaces {
    match op {
        Op::Column { from, column: _ } => NamedPlaces::At(from),
        _ => NamedPlaces::Nowhere,
    }
}

fn wider(one: NamedPlaces, other: NamedPlaces) -> NamedPlaces {
    match (one, other) {
        (NamedPlaces::Nowhere, reach) => reach,
        (reach, NamedPlaces::Nowhere) => reach,
        (NamedPlaces::At(a), NamedPlaces::At(b)) => {
            if a == b {
                NamedPlaces::At(a)
            } else {
                NamedPlaces::Far
            }
        }
        _ => NamedPlaces::Far,
    }
}

fn reach_of(e: &TExpr) -> NamedPlaces {
    let mut reach = own_reach(e.op);
    for arg in &e.args {
        reach = wider(reach, reach_of(arg));
    }
    reach
}

// What is remembered of an operator: its outcomes, its boxes or its covers.
#[derive(Clone, Copy)]
enum Remembered {
    Outcome,
    Box,
    Covers,
}

// An operator that may be remembered: its place in the script, and the place of FROM that it names.
#[derive(Clone, Copy)]
struct Chosen {
    at: u32,
    place: Option<u32>,
    what: Remembered,
}

// A number for each thing that is remembered.
fn number_of(what: Remembered) -> u8 {
    match what {
        Remembered::Outcome => 0,
        Remembered::Box => 1,
        Remembered::Covers => 2,
    }
}

// Whether two have the same place in the script.
fn is_again(one: &Chosen, other: &Chosen) -> bool {
    if one.at != other.at {
        return false;
    }
    number_of(one.what) == number_of(other.what)
}

// Adds an operator, unless one with its place in the script is in the list.
fn add(one: Chosen, chosen: &mut Vec<Chosen>) -> Result<(), AllocError> {
    for other in chosen.as_slice() {
        if is_again(&one, other) {
            return Ok(());
        }
    }
    chosen.push(one)?;
    Ok(())
}

// The place of FROM that an expression names, if it names at most one. If each row is visited once
// and the expression is evaluated once on it, remembering helps only if it names none.
fn place_named(e: &TExpr, again: bool) -> Option<Option<u32>> {
    match reach_of(e) {
        NamedPlaces::Nowhere => Some(None),
        NamedPlaces::At(place) => { if again { Some(Some(place)) } else { None } }
        NamedPlaces::Far => None,
    }
}

// What may be remembered of the operands of an operator.
fn of_operands(op: Op, mode: Mode) -> Option<Remembered> {
    match (op, mode) {
        (Op::Overlap, _) => Some(Remembered::Box),
        (Op::EDwithin, Mode::Wide) => Some(Remembered::Covers),
        (Op::NearestApproachSquared, Mode::Wide) => Some(Remembered::Covers),
        _ => None,
    }
}

// The operands whose boxes or covers may be remembered: moving points.
fn choose_operands(
    e: &TExpr,
    mode: Mode,
    again: bool,
    chosen: &mut Vec<Chosen>,
) -> Result<(), AllocError> {
    let Some(what) = of_operands(e.op, mode) else {
        return Ok(());
    };
    for arg in &e.args {
        if let (SqlType::TPoint, Some(place)) = (arg.ty, place_named(arg, again)) {
            let one = Chosen {
                at: arg.place,
                place,
                what,
            };
            add(one, chosen)?;
        }
    }
    Ok(())
}

// The largest operators of an expression that may be remembered.
fn choose(e: &TExpr, mode: Mode, again: bool, chosen: &mut Vec<Chosen>) -> Result<(), AllocError> {
    if e.args.is_empty() || chosen.len() >= MOST {
        return Ok(());
    }
    if let Some(place) = place_named(e, again) {
        let one = Chosen {
            at: e.place,
            place,
            what: Remembered::Outcome,
        };
        return add(one, chosen);
    }
    choose_operands(e, mode, again, chosen)?;
    for arg in &e.args {
        choose(arg, mode, again, chosen)?;
    }
    Ok(())
}

// The places of some expressions in the script, in order.
fn places_of(alloc: Global, roots: &[&TExpr]) -> Result<Vec<u32>, AllocError> {
    let mut places = Vec::new(alloc);
    for root in roots {
        places.push(root.place)?;
    }
    places.sort_unstable();
    Ok(places)
}

// Whether a place occurs twice in a sorted list.
fn is_twice(places: &[u32], place: u32) -> bool {
    let Ok(found) = places.binary_search(&place) else {
        return false;
    };
    if found > 0 && places[found - 1] == place {
        return true;
    }
    places.get(found + 1) == Some(&place)
}

// The operators of several expressions. In a query of one table, only an expression that occurs
// twice is evaluated again on a row, such as that of a column to which a key refers.
fn chosen_of(
    alloc: Global,
    mode: Mode,
    several: bool,
    roots: &[&TExpr],
) -> Result<Vec<Chosen>, AllocError> {
    let places = places_of(alloc, roots)?;
    let mut chosen = Vec::new(alloc);
    for root in roots {
        let again = several || is_twice(places.as_slice(), root.place);
        choose(*root, mode, again, &mut chosen)?;
    }
    Ok(chosen)
}

// How many rows the table of a place has; one memo is enough if no place is named.
fn rows_at(store: &Store, from: &[u32], place: Option<u32>) -> usize {
    let Some(place) = place else {
        return 1;
    };
    let Some(number) = from.get(place as usize) else {
        return 0;
    };
    match store.tables.as_slice().get(*number as usize) {
        Some(table) => table.rows.len(),
        None => 0,
    }
}

// Remembers an operator, unless a different one has the same place in the script.
fn remember_one<K: Remembering>(
    alloc: Global,
    roots: &[&TExpr],
    chosen: &Chosen,
    rows: usize,
    memory: &mut Memory<K>,
) -> Result<(), AllocError>
    requires roots { K.recollection.roots ≡ map root_seen roots.now }
{
    match nodes_of_all(roots, chosen.at) {
        NodesAt::Only(e) => {
            if !names_only(e, chosen.place) {
                return Ok(());
            }
            match chosen.what {
                Remembered::Outcome => {
                    remember(alloc, chosen.at, chosen.place, rows, &mut memory.slots)
                }
                Remembered::Box => remember(
                    alloc,
                    chosen.at,
                    chosen.place,
                    rows,
                    &mut memory.boxes,
                ),
                Remembered::Covers => remember(
                    alloc,
                    chosen.at,
                    chosen.place,
                    rows,
                    &mut memory.covers,
                ),
            }
        }
        _ => Ok(()),
    }
}

/// A memory for the operators of these expressions that name at most one table of FROM, for the
/// boxes of such operands of `&&`, and in the wide mode for the covers of such operands of eDwithin
/// and nearestApproachSquared. It remembers about eight, and none that shares its place in the
/// script with a different one. If an allocation fails, it remembers fewer.
pub fn memory_of<K: Remembering>(
    alloc: Global,
    mode: Mode,
    store: &Store,
    from: &[u32],
    roots: &[&TExpr],
) -> Memory<K>
    requires roots { K.recollection.roots ≡ map root_seen roots.now }
{
    let mut memory = Memory::new(alloc);
    let Ok(chosen) = chosen_of(alloc, mode, from.len() > 1, roots) else {
        return memory;
    };
    for one in &chosen {
        let rows = rows_at(store, from, one.place);
        if remember_one(alloc, roots, one, rows, &mut memory).is_err() {
            return memory;
        }
    }
    memory
}
