//! Looks operators up in the table.
ghost use Rattle.std.specs.Prelude.{◌≡◌, map};
ghost use Rattle.std.specs.List.{list_any, list_all};
ghost use Rattle.mob_operators.specs.Table.{table, is_irrational};
ghost use Rattle.mob_operators.specs.Lookup.{line_of, lines_of, same_type, has_type, is_temporal, is_whole_type, types_fit, are_same, meets, given, operator_named, operator_in, takes, answer_of, found_in, has_function};

use crate::operator::{Op, Spelling};
use crate::table::{Bond, ROWS, ResultType, Row};
use mob_ast::SqlType;

// Whether two types are the same.
fn is_same(a: SqlType, b: SqlType) -> bool
    ensures same { result ≡ same_type a b }
{
    a == b
}

/// Whether a type is one of these.
pub fn has_type(class: &[SqlType], ty: SqlType) -> bool
    ensures among { result ≡ has_type class.now ty }
{
    class.iter().any(|t| is_same(*t, ty))
}

fn is_temporal(ty: SqlType) -> bool
    ensures temporal { result ≡ is_temporal ty }
{
    matches!(
        ty,
        SqlType::TBool | SqlType::TInt | SqlType::TFrac | SqlType::TText | SqlType::TPoint
    )
}

fn is_whole_type(ty: SqlType) -> bool
    ensures whole { result ≡ is_whole_type ty }
{
    matches!(ty, SqlType::Int | SqlType::TInt)
}

fn any_temporal(types: &[SqlType]) -> bool
    ensures one_temporal { result ≡ list_any is_temporal types.now }
{
    types.iter().any(|ty| is_temporal(*ty))
}

fn all_whole(types: &[SqlType]) -> bool
    ensures each_whole { result ≡ list_all is_whole_type types.now }
{
    types.iter().all(|ty| is_whole_type(*ty))
}

// Whether there are as many types as classes, and each type is in the class at its position.
fn types_fit(classes: &[&[SqlType]], types: &[SqlType]) -> bool
    ensures one_for_one { result ≡ types_fit (map (λ c. c.now) classes.now) types.now }
{
    let Some((class, other_classes)) = classes.split_first() else {
        return types.is_empty();
    };
    let Some((ty, other_types)) = types.split_first() else {
        return false;
    };
    has_type(class, *ty) && types_fit(other_classes, other_types)
}

fn are_same(types: &[SqlType]) -> bool
    ensures same { result ≡ are_same types.now }
{
    match types {
        [a, b] => is_same(*a, *b),
        _ => false,
    }
}

impl Bond {
    fn meets(self, types: &[SqlType], by_literal: bool) -> bool
        ensures met { result ≡ meets self types.now by_literal }
    {
        match self {
            Bond::Free => true,
            Bond::OneMoving => any_temporal(types),
            Bond::SameType => are_same(types),
            Bond::ByLiteral => by_literal,
        }
    }
}

impl ResultType {
    fn given(self, types: &[SqlType]) -> Option<SqlType>
        ensures result_type { result ≡ given self types.now }
    {
        match self {
            ResultType::Only(ty) => Some(ty),
            ResultType::First => types.first().copied(),
            ResultType::Whole(whole, other) => Some(if all_whole(types) { whole } else { other }),
        }
    }
}

impl Row {
    // The operator of the row with this form and name.
    fn operator(&self, form: Spelling, name: &str) -> Option<Op>
        ensures named { result ≡ operator_in (line_of self.now) form name.now }
    {
        if self.form == form {
            operator_named(self.names, name)
        } else {
            None
        }
    }

    // Whether the row takes these arguments.
    fn takes(&self, types: &[SqlType], by_literal: bool) -> bool
        ensures taken { result ≡ takes (line_of self.now) types.now by_literal }
    {
        types_fit(self.takes, types) && self.bond.meets(types, by_literal)
    }

    fn answer(
        &self,
        form: Spelling,
        name: &str,
        types: &[SqlType],
        by_literal: bool,
    ) -> Option<(Op, SqlType)>
        ensures of_row { result ≡ answer_of (line_of self.now) form name.now types.now by_literal }
    {
        let op = self.operator(form, name)?;
        if !self.takes(types, by_literal) {
            return None;
        }
        let ty = self.gives.given(types)?;
        Some((op, ty))
    }
}

// The operator with this name.
fn operator_named(names: &[(&str, Op)], name: &str) -> Option<Op>
    ensures first { result ≡ operator_named (map (λ n. (n.0.now, n.1)) names.now) name.now }
{
    for (other, op) in names {
        if *other == name {
            return Some(*op);
        }
    }
    None
}

// The operator and the result type of the first row that takes the call.
fn first_of(
    rows: &[Row],
    form: Spelling,
    name: &str,
    types: &[SqlType],
    by_literal: bool,
) -> Option<(Op, SqlType)>
    ensures first_row { result ≡ found_in (lines_of rows.now) form name.now types.now by_literal }
{
    for row in rows {
        if let Some(answer) = row.answer(form, name, types, by_literal) {
            return Some(answer);
        }
    }
    None
}

// Whether any row has a function with this name.
fn any_function(rows: &[Row], name: &str) -> bool
    ensures known { result ≡ has_function (lines_of rows.now) name.now }
{
    for row in rows {
        if row.operator(Spelling::Call, name).is_some() {
            return true;
        }
    }
    false
}

fn rows() -> &'static [Row]
    ensures all { lines_of result.now ≡ table }
{
    &ROWS
}

/// The operator of a call with this form and name, and the type of its result, for arguments of
/// these types. `by_literal` says whether the last argument is a number literal under any number of
/// signs. `None` if no row of the table takes them.
pub fn operator_for(
    form: Spelling,
    name: &str,
    types: &[SqlType],
    by_literal: bool,
) -> Option<(Op, SqlType)>
    ensures first_row { result ≡ found_in table form name.now types.now by_literal }
{
    first_of(rows(), form, name, types, by_literal)
}

/// Whether the table has a function with this name, in lower case.
pub fn is_function(name: &str) -> bool
    ensures known { result ≡ has_function table name.now }
{
    any_function(rows(), name)
}

/// Whether a sign or function with this name is refused because its results may be irrational.
pub fn is_irrational(form: Spelling, name: &str) -> bool
    ensures listed { result ≡ is_irrational form name.now }
{
    match form {
        Spelling::Word => false,
        Spelling::Sign => name == "<->" || name == "|=|",
        Spelling::Call => {
            name == "tdwithin"
                || name == "nearestapproachdistance"
                || name == "length"
                || name == "speed"
        }
    }
}
