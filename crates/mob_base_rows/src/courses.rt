//! Steady courses, lists and texts.

use crate::lines::span;
use mob_frac::Frac;
use mob_list::items::Items;
use mob_list::text::Text;
use mob_slice::{BaseValue, Course, Steady};
use mob_span::Span;
use std::alloc::Global;

// Whether a steady course of this value has it at an instant of its span, in a copy, and on the
// next span.
fn goes_on<B: BaseValue + Drop>(alloc: Global, value: B, first: &Span, next: &Span) -> bool {
    if !first.has(first.lower()) || !first.meets(next) {
        return false;
    }
    let course = Steady { value };
    match course.at(alloc, first, first.lower()) {
        Ok(value) => is_copied(alloc, &course, &value, first, next),
        Err(_) => false,
    }
}

fn is_copied<B: BaseValue + Drop>(
    alloc: Global,
    course: &Steady<B>,
    value: &B,
    first: &Span,
    next: &Span,
) -> bool {
    if !first.meets(next) {
        return false;
    }
    match Steady::<B>::copy_base(alloc, value) {
        Ok(copy) => {
            let made = Steady { value: copy };
            Steady::same(course.start(), made.end()) && course.continues(first, &made, next)
        }
        Err(_) => false,
    }
}

fn is_steady<B: BaseValue + Drop>(alloc: Global, value: B) -> bool {
    match (span((0, 1, true, false)), span((1, 2, true, true))) {
        (Some(first), Some(next)) => goes_on(alloc, value, &first, &next),
        _ => false,
    }
}

fn is_steady_fraction(alloc: Global) -> bool {
    match Frac::new(1, 2) {
        Ok(half) => is_steady(alloc, half),
        Err(_) => false,
    }
}

fn is_steady_text(alloc: Global) -> bool {
    match String::from_str(alloc, "red") {
        Ok(red) => is_steady(alloc, Text::from_string(red)),
        Err(_) => false,
    }
}

#[test]
fn courses_are_steady(rt: HostRuntime) {
    assert!(rt; is_steady(rt.alloc(), true));
    assert!(rt; is_steady_fraction(rt.alloc()));
    assert!(rt; is_steady_text(rt.alloc()));
}

fn are_pushed(items: &mut Items<u8>) -> bool {
    items.is_empty() && items.push(7).is_ok() && items.push(3).is_ok() && items.len() == 2
}

fn are_kept(alloc: Global) -> bool {
    let mut items = Items::new(alloc);
    let is_pushed = are_pushed(&mut items) && items.as_slice() == [7, 3].as_slice();
    let again = Items::from_vec(items.into_vec());
    is_pushed && again.as_slice() == [7, 3].as_slice()
}

fn has_copy(alloc: Global, text: &Text, wanted: &str) -> bool {
    match text.copy(alloc) {
        Ok(copy) => copy.as_str() == wanted && copy.into_string().as_str() == wanted,
        Err(_) => false,
    }
}

fn is_text(alloc: Global, text: &str) -> bool {
    match String::from_str(alloc, text) {
        Ok(string) => has_copy(alloc, &Text::from_string(string), text),
        Err(_) => false,
    }
}

#[test]
fn lists_and_texts_are_kept(rt: HostRuntime) {
    assert!(rt; are_kept(rt.alloc()));
    assert!(rt; is_text(rt.alloc(), "Żagiel"));
}
