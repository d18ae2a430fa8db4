//! Texts with their tokens and their faults, determined by hand.

use mob_chars::laws::{faults_are_stuck, tokens_are_in_order, tokens_are_laid};
use mob_chars::lexer::tokens;
use mob_chars::token::TokenKind::{End, Number, Sign, Str, Word};
use mob_chars::token::{Token, TokenKind};
use mob_list::fault::Fault;
use std::alloc::{AllocError, Global};

// Texts, each with its tokens: the kind of each, and its two places.
static TEXTS: [(&str, &[(TokenKind, u32, u32)]); 7] = [
    ("", &[(End, 0, 0)]),
    (
        "SELECT a.b2 FROM _t;",
        &[
            (Word, 0, 6),
            (Word, 7, 8),
            (Sign, 8, 9),
            (Word, 9, 11),
            (Word, 12, 16),
            (Word, 17, 19),
            (Sign, 19, 20),
            (End, 20, 20),
        ],
    ),
    (
        "1.5e-3 .5 1. 1e 2.3.4",
        &[
            (Number, 0, 6),
            (Number, 7, 9),
            (Number, 10, 12),
            (Number, 13, 14),
            (Word, 14, 15),
            (Number, 16, 19),
            (Number, 19, 21),
            (End, 21, 21),
        ],
    ),
    ("'it''s' ''", &[(Str, 0, 7), (Str, 8, 10), (End, 10, 10)]),
    (
        "a<=b<->c|=|d#<>e!=f",
        &[
            (Word, 0, 1),
            (Sign, 1, 3),
            (Word, 3, 4),
            (Sign, 4, 7),
            (Word, 7, 8),
            (Sign, 8, 11),
            (Word, 11, 12),
            (Sign, 12, 15),
            (Word, 15, 16),
            (Sign, 16, 18),
            (Word, 18, 19),
            (End, 19, 19),
        ],
    ),
    (
        "1 -- to the end\n2--",
        &[(Number, 0, 1), (Number, 16, 17), (End, 19, 19)],
    ),
    (
        "- -1::int",
        &[
            (Sign, 0, 1),
            (Sign, 2, 3),
            (Number, 3, 4),
            (Sign, 4, 6),
            (Word, 6, 9),
            (End, 9, 9),
        ],
    ),
];

// Texts, each with the place at which no token begins.
static FAULTS: [(&str, u32); 8] = [
    ("a ? b", 2),
    ("SELECT tint '[1@2001", 12),
    ("'", 0),
    ("é", 0),
    ("x = 'é' #", 9),
    ("a!", 1),
    ("'a''", 0),
    ("1\n:", 2),
];

fn are(found: &[Token], wanted: &[(TokenKind, u32, u32)]) -> bool {
    if found.len() != wanted.len() {
        return false;
    }
    for (token, (kind, from, to)) in found.iter().zip(wanted) {
        if token.kind != *kind || token.from != *from || token.to != *to {
            return false;
        }
    }
    true
}

fn has_tokens(alloc: Global, text: &str, wanted: &[(TokenKind, u32, u32)]) -> bool {
    if text.len() > 1000 {
        return false;
    }
    match tokens(alloc, text) {
        Ok(found) => are(found.as_slice(), wanted),
        Err(_) => false,
    }
}

fn fault_of(alloc: Global, text: &str) -> Option<u32> {
    if text.len() > 1000 {
        return None;
    }
    match tokens(alloc, text) {
        Err(Fault::Because(place)) => Some(place),
        _ => None,
    }
}

#[test]
fn texts_have_their_tokens(rt: HostRuntime) {
    for (text, wanted) in &TEXTS {
        assert!(rt; has_tokens(rt.alloc(), text, wanted), "{text}");
    }
}

#[test]
fn faults_have_their_places(rt: HostRuntime) {
    for (text, place) in &FAULTS {
        assert!(rt; fault_of(rt.alloc(), text) == Some(*place), "{text}");
    }
}

#[test]
fn laws_of_tokens_are_called() {
    tokens_are_laid();
    faults_are_stuck();
    tokens_are_in_order();
}

// A text of the greatest length that a script can have.
fn long_text(alloc: Global) -> Result<String, AllocError> {
    let mut text = String::new(alloc);
    for _ in 0..524288 {
        text.push_str("a+1,'b' ")?;
    }
    Ok(text)
}

fn has_many_tokens(alloc: Global, text: &str, wanted: usize) -> bool {
    if text.len() != 4194304 {
        return false;
    }
    match &tokens(alloc, text) {
        Ok(found) => found.len() == wanted,
        Err(_) => false,
    }
}

#[test]
fn a_long_text_takes_seconds_at_most(rt: HostRuntime) {
    match &long_text(rt.alloc()) {
        Ok(text) => assert!(rt; has_many_tokens(rt.alloc(), text.as_str(), 5 * 524288 + 1)),
        Err(_) => assert!(rt; false),
    }
}
