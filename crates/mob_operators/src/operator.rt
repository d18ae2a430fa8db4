//! The operators of typed expressions.

use mob_ast::Cmp;

/// The operator of a node of a typed expression.
#[derive(Clone, Copy, Debug, PartialEq, Eq)]
pub enum Op {
    Null,
    /// The constant with this number, from 0 in written order.
    Const(u32),
    /// A column of a table of FROM, both counted from 0.
    Column {
        /// The number of the table in FROM.
        from: u32,
        /// The number of the column in the table.
        column: u32,
    },
    Not,
    And,
    Or,
    IsNull,
    IsNotNull,
    /// A plain comparison, of values that do not change over time.
    Test(Cmp),
    /// `+` between two arguments.
    Add,
    /// `-` between two arguments.
    Subtract,
    /// `*`.
    Multiply,
    /// `/`.
    Divide,
    /// `-` before its argument.
    Negate,
    /// `+` before its argument.
    Same,
    /// `||`.
    Join,
    /// `&`.
    LiftedAnd,
    /// `|`.
    LiftedOr,
    /// `~`.
    LiftedNot,
    /// A `#` sign: the comparison at each instant, a tbool.
    Lifted(Cmp),
    /// A `?` sign: whether the comparison holds at some instant.
    Ever(Cmp),
    /// A `%` sign: whether the comparison holds at every instant.
    Always(Cmp),
    /// `&&`.
    Overlap,
    /// `atTime`.
    AtTime,
    /// `minusTime`.
    MinusTime,
    /// `atValues`.
    AtValues,
    /// `minusValues`.
    MinusValues,
    /// `valueAtTimestamp`.
    ValueAtTimestamp,
    /// `getTime`.
    GetTime,
    /// `whenTrue`.
    WhenTrue,
    /// `getX`.
    GetX,
    /// `getY`.
    GetY,
    /// `stbox`.
    BoxOf,
    /// `expandSpace`.
    ExpandSpace,
    /// `atStbox`.
    AtStbox,
    /// `minusStbox`.
    MinusStbox,
    /// `atGeometry`.
    AtGeometry,
    /// `minusGeometry`.
    MinusGeometry,
    /// `eIntersects`.
    EIntersects,
    /// `eDwithin`.
    EDwithin,
    /// `nearestApproachSquared`.
    NearestApproachSquared,
    /// `asText`.
    AsText,
    /// `::`.
    Cast,
}

/// How an operator is written.
#[derive(Clone, Copy, Debug, PartialEq, Eq)]
pub enum Spelling {
    /// By words, such as NOT or IS NULL.
    Word,
    /// By a sign.
    Sign,
    /// As a call of a function.
    Call,
}
