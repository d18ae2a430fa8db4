//! Finds expressions with more counted tokens than the limit of 256.
ghost use Rattle.std.specs.Prelude.{◌≡◌, ◌<◌, ◌≤◌, ◌+◌, ◌^◌, length, IfSome};
ghost use Rattle.mob_lexemes.specs.Weights.{counts, mark_counts, mark_ends, is_function};
ghost use Rattle.mob_lexemes.specs.Lexemes.{placed_symbol, placed_symbols};
ghost use Rattle.mob_lexemes.specs.Heavy.{ends, depth_after, begins_expressions, selects_after, weight_after, standing_after, is_heavy, first_heavy};

use crate::lexeme::{Lexeme, Symbol, begins_literal};
use mob_grammar::mark::Mark;

/// The position of a token in its statement and expression, from the tokens before it.
#[derive(Clone, Copy)]
pub struct TokenStanding {
    /// Whether it is in a SELECT or a DELETE.
    pub selects: bool,
    /// How many brackets are open.
    pub depth: usize,
    /// How many counted tokens of its expression come before it.
    pub weight: usize,
    /// Whether it follows a `::` or a `.`, so that it is a type or a column and begins no call.
    pub no_call: bool,
}

// Whether a mark is counted.
fn mark_counts(mark: Mark) -> bool
    ensures exact { result ≡ mark_counts mark }
{
    match mark {
        Mark::Or | Mark::And | Mark::Not | Mark::Is => true,
        Mark::Comma | Mark::Dot | Mark::Close | Mark::Semicolon => false,
        _ => !mark.is_reserved_word(),
    }
}

// Whether a mark ends the expression before it.
fn mark_ends(mark: Mark) -> bool
    ensures exact { result ≡ mark_ends mark }
{
    match mark {
        Mark::Or | Mark::And | Mark::Not | Mark::Is => false,
        Mark::Null | Mark::True | Mark::False => false,
        Mark::Semicolon => true,
        _ => mark.is_reserved_word(),
    }
}

// Whether a mark begins a statement that has expressions.
fn begins_expressions(mark: Mark) -> bool
    ensures exact { result ≡ begins_expressions mark }
{
    matches!(mark, Mark::Select | Mark::Delete)
}

// Whether a name is that of a function, if these tokens follow it.
fn is_function(no_call: bool, after: &[Lexeme<'_>]) -> bool
    ensures exact { result ≡ is_function no_call (placed_symbols after.now) }
{
    if no_call {
        return false;
    }
    match after {
        [first, rest @ ..] if first.is(Mark::Open) => !begins_literal(rest),
        _ => false,
    }
}

impl TokenStanding {
    // Whether this token, at this position and before these tokens, is a counted token of an
    // expression.
    fn counts(&self, lexeme: &Lexeme<'_>, after: &[Lexeme<'_>]) -> bool
        ensures exact { result ≡ counts self.now (placed_symbol lexeme.now).symbol (placed_symbols after.now) }
    {
        match lexeme.symbol {
            Symbol::Fixed(mark) => self.selects && mark_counts(mark),
            Symbol::Name(_) => self.selects && is_function(self.no_call, after),
            Symbol::Number(_) | Symbol::Quoted(_) => false,
        }
    }

    fn is_heavy(&self, lexeme: &Lexeme<'_>, after: &[Lexeme<'_>]) -> bool
        ensures exact { result ≡ is_heavy self.now (placed_symbol lexeme.now).symbol (placed_symbols after.now) }
    {
        self.weight == 256 && self.counts(lexeme, after)
    }

    fn ends(&self, lexeme: &Lexeme<'_>) -> bool
        ensures exact { result ≡ ends self.now (placed_symbol lexeme.now).symbol }
    {
        match lexeme.symbol {
            Symbol::Fixed(mark) => mark_ends(mark) || (mark.is(Mark::Comma) && self.depth == 0),
            Symbol::Name(_) | Symbol::Number(_) | Symbol::Quoted(_) => false,
        }
    }

    // The number of open brackets after the lexeme.
    fn depth_after(&self, lexeme: &Lexeme<'_>) -> usize
        requires shallow { self.now.depth < 2 ^ 62 }
        ensures depth { result ≡ depth_after self.now.depth (placed_symbol lexeme.now).symbol }
        ensures near { result ≤ self.now.depth + 1 }
    {
        match lexeme.symbol {
            Symbol::Fixed(mark) => {
                if mark.is(Mark::Open) {
                    self.depth + 1
                } else if mark.is(Mark::Close) {
                    self.depth.saturating_sub(1)
                } else {
                    self.depth
                }
            }
            Symbol::Name(_) | Symbol::Number(_) | Symbol::Quoted(_) => self.depth,
        }
    }

    fn selects_after(&self, lexeme: &Lexeme<'_>) -> bool
        ensures exact { result ≡ selects_after self.now.selects (placed_symbol lexeme.now).symbol }
    {
        match lexeme.symbol {
            Symbol::Fixed(mark) => {
                if begins_expressions(mark) {
                    true
                } else if mark.is(Mark::Semicolon) {
                    false
                } else {
                    self.selects
                }
            }
            Symbol::Name(_) | Symbol::Number(_) | Symbol::Quoted(_) => self.selects,
        }
    }

    // The number of counted tokens up to and including the lexeme.
    fn weight_after(&self, lexeme: &Lexeme<'_>, after: &[Lexeme<'_>]) -> usize
        requires light { self.now.weight < 2 ^ 62 }
        ensures weight { result ≡ weight_after self.now (placed_symbol lexeme.now).symbol (placed_symbols after.now) }
        ensures near { result ≤ self.now.weight + 1 }
    {
        if self.counts(lexeme, after) {
            self.weight + 1
        } else {
            self.weight
        }
    }

    // The position of the token after the lexeme.
    fn after(&self, lexeme: &Lexeme<'_>, after: &[Lexeme<'_>]) -> TokenStanding
        requires depth { self.now.depth < 2 ^ 62 }
        requires weight { self.now.weight < 2 ^ 62 }
        ensures stands { result ≡ standing_after self.now (placed_symbol lexeme.now).symbol (placed_symbols after.now) }
        ensures depth_near { result.depth ≤ self.now.depth + 1 }
        ensures weight_near { result.weight ≤ self.now.weight + 1 }
    {
        let selects = self.selects_after(lexeme);
        let no_call = lexeme.is(Mark::Cast) || lexeme.is(Mark::Dot);
        if self.ends(lexeme) {
            TokenStanding {
                selects,
                depth: 0,
                weight: 0,
                no_call,
            }
        } else {
            TokenStanding {
                selects,
                depth: self.depth_after(lexeme),
                weight: self.weight_after(lexeme, after),
                no_call,
            }
        }
    }
}

/// The index, from 0, of the first token that is the 257th counted one of its expression.
pub fn first_heavy(lexemes: &[Lexeme<'_>]) -> Option<usize>
    ensures place { result ≡ first_heavy (placed_symbols lexemes.now) }
    ensures within { IfSome result (λ n. n < length lexemes.now) }
{
    let mut standing = TokenStanding {
        selects: false,
        depth: 0,
        weight: 0,
        no_call: false,
    };
    let mut at = 0;
    let mut rest = lexemes;
    'tokens: while let [first, after @ ..] = rest {
        if standing.is_heavy(first, after) {
            return Some(at);
        }
        standing = standing.after(first, after);
        at += 1;
        rest = after;
    }
    None
}
