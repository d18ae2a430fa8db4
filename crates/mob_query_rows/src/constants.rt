//! Tests of how constants without a value are refused.

use mob_ast::{Kind, Refusal, SqlType};
use mob_catalog::constant_refusal;
use mob_list::text::Text;
use mob_scalar::ReadText;
use mob_typed::ConstText;
use std::alloc::{AllocError, Global};

// A truth value of a script, from its text, in statement 2.
fn truth(alloc: Global, characters: &str, place: u32) -> Result<ConstText, AllocError> {
    Ok(ConstText {
        ty: SqlType::Bool,
        text: Text::from_str(alloc, characters)?,
        statement: 2,
        place,
    })
}

fn refusal(kind: Kind, place: u32) -> Refusal {
    Refusal {
        kind,
        statement: 2,
        place,
    }
}

// The refusal of a literal, for each fault.
fn are_refused(literal: &ConstText) -> bool {
    let bad = Some(refusal(Kind::BadLiteral, 15));
    constant_refusal(ReadText::Limit, literal) == Some(refusal(Kind::Limit, 15))
        && constant_refusal(ReadText::NotText, literal) == bad
        && constant_refusal(ReadText::TooLarge, literal) == bad
        && constant_refusal(ReadText::Unsound, literal) == bad
        && constant_refusal(ReadText::NoMemory, literal).is_none()
}

fn are_refused_at(alloc: Global, place: u32) -> bool {
    match &truth(alloc, "maybe", place) {
        Ok(literal) => are_refused(literal),
        Err(_) => false,
    }
}

#[test]
fn literals_are_refused_at_their_places(rt: HostRuntime) {
    assert!(rt; are_refused_at(rt.alloc(), 15));
}
